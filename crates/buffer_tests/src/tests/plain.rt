// Plain data, the buffers that are built of it, and stores by kind.
ghost use Rattle.std.specs.Prelude.{◌≡◌, IfOk};

use crate::tests::acts::{Act, acts_lent, make_act};
use crate::tests::why::{Why, ended, is_like, list_of};
use rent_buf::{Buf, BufSpec, HeldBuf, Kind, OutOfMemory};
use std::alloc::Global;

// What the row shows, total, begin and end, bytes, and whether they are a buffer.
type Row = (&'static str, usize, usize, usize, &'static str, bool);

#[rattlefmt::skip]
const SPECS: &[Row] = &[
    ("1 to 8 of 10", 10, 1, 8, "0123", true),
    ("1 to 2 of 2", 2, 1, 2, "a", true),
    ("0 to 0 of 0", 0, 0, 0, "", true),
    ("1 to 3 of 2", 2, 1, 3, "a", false),
    ("2 to 2 of 2 with one byte", 2, 2, 2, "a", false),
    ("2 to 1 of 3", 3, 2, 1, "abc", false),
    ("0 to 1 of 2 with three bytes", 2, 0, 1, "abc", false),
];

// The kind, the total and the range of a spec.
type Shape = (Kind, usize, (usize, usize));

// The spec of this shape and these bytes, if it is one.
fn spec_of(alloc: Global, shape: Shape, bytes: &str) -> Result<Option<BufSpec>, Why> {
    let (kind, total, (begin, end)) = shape;
    Ok(BufSpec::new(kind, total, begin, end, list_of(alloc, bytes)?))
}

// Whether a spec has this shape and these bytes.
fn is_spec(spec: &BufSpec, shape: Shape, bytes: &str) -> bool {
    let own = (spec.kind(), spec.total(), (spec.begin(), spec.end()));
    own == shape && spec.bytes() == bytes.as_bytes()
}

// The spec of what was built of a copy.
fn copied(spec: &BufSpec) -> Result<BufSpec, Why> {
    Ok(spec.try_clone()?.build()?.into_spec())
}

// Whether specs are equal, also where a request holds them.
fn are_equal(back: BufSpec, spec: BufSpec) -> bool {
    back == spec && HeldBuf::One(back) == HeldBuf::One(spec)
}

// What is built of a spec has that spec.
fn built(spec: BufSpec, shape: Shape, bytes: &str) -> Result<(), Why> {
    is_like(is_spec(&spec, shape, bytes))?;
    let back = copied(&spec)?;
    is_like(are_equal(back, spec))
}

// One row.
fn spec_row(alloc: Global, (_, total, begin, end, bytes, is_buffer): Row) -> Result<(), Why> {
    let shape = (Kind::Vector, total, (begin, end));
    let spec = spec_of(alloc, shape, bytes)?;
    is_like(spec.is_some() == is_buffer)?;
    match spec {
        Some(spec) => built(spec, shape, bytes),
        None => Ok(()),
    }
}

#[test]
fn a_spec_is_of_what_is_built(rt: HostRuntime) -> Result<(), OutOfMemory> {
    for each in SPECS {
        ended(&rt, each.0, spec_row(rt.alloc(), *each));
    }
    Ok(())
}

#[rattlefmt::skip]
const FILLS: &[Act] = &[Act::Fill(2, 5, "xyz"), Act::Set(b'w'), Act::Shows("w2xyz")];

// The bytes of a buffer, with those before its range.
fn is_whole(buf: Buf, want: &str) -> bool {
    buf.into_spec().bytes() == want.as_bytes()
}

fn filled(alloc: Global) -> Result<(), Why> {
    let Some(spec) = spec_of(alloc, (Kind::Vector, 10, (1, 8)), "0123")? else {
        return Err(Why::Unmet);
    };
    let buf = acts_lent(spec.build()?, FILLS)?;
    is_like(is_whole(buf, "0w2xyz"))
}

#[test]
fn a_built_buffer_is_filled(rt: HostRuntime) -> Result<(), OutOfMemory> {
    ended(&rt, "a built buffer", filled(rt.alloc()));
    Ok(())
}

// The spec of what was built of a spec is that spec.
fn rebuilt(spec: BufSpec) -> Result<BufSpec, OutOfMemory>
    ensures { IfOk result (λ again. again ≡ spec) }
{
    Ok(spec.build()?.into_spec())
}

// What the row shows; the shape and the bytes of a buffer; where a store begins in the range, and what is stored; and the bytes then.
type Stored = (
    &'static str,
    Shape,
    &'static str,
    (usize, &'static str),
    &'static str,
);

#[rattlefmt::skip]
const KINDS: &[Stored] = &[
    ("a vector ends with what was stored", (Kind::Vector, 10, (1, 8)), "01234567", (1, "x"), "01x"),
    ("a vector is shorter after a short store", (Kind::Vector, 4, (0, 4)), "0123", (0, "ab"), "ab"),
    ("a grown one is as long", (Kind::Grown, 4, (0, 4)), "0123", (0, "ab"), "ab23"),
    ("a fixed one is as long", (Kind::Fixed, 4, (0, 4)), "0123", (0, "ab"), "ab23"),
    ("a longer tail is kept", (Kind::Grown, 10, (1, 8)), "01234567", (1, "x"), "01x34567"),
    ("a shorter tail goes", (Kind::Grown, 10, (1, 8)), "0123", (2, "abc"), "012abc"),
    ("an empty store keeps the tail", (Kind::Grown, 10, (1, 8)), "0123", (1, ""), "0123"),
    ("a fixed length stays", (Kind::Fixed, 8, (1, 8)), "01234567", (1, "x"), "01x34567"),
    ("a fixed buffer is stored to its end", (Kind::Fixed, 4, (0, 4)), "0123", (2, "ab"), "01ab"),
    ("an empty store keeps a fixed buffer", (Kind::Fixed, 4, (2, 4)), "0123", (0, ""), "0123"),
];

// One row.
fn kind_row(alloc: Global, (_, shape, held, (at, bytes), want): Stored) -> Result<(), Why> {
    let Some(spec) = spec_of(alloc, shape, held)? else {
        return Err(Why::Unmet);
    };
    let buf = make_act(rebuilt(spec)?.build()?, Act::Store(at, bytes))?;
    is_like(is_spec(&buf.into_spec(), shape, want))
}

#[test]
fn a_store_is_by_kind(rt: HostRuntime) -> Result<(), OutOfMemory> {
    for each in KINDS {
        ended(&rt, each.0, kind_row(rt.alloc(), *each));
    }
    Ok(())
}

// What the row shows, the kind, the total and the bytes of a buffer, and whether they are one.
#[rattlefmt::skip]
const BOUNDS: &[(&str, Kind, usize, &str, bool)] = &[
    ("a grown one of 3 with two bytes", Kind::Grown, 3, "ab", true),
    ("a grown one of 1 with two bytes", Kind::Grown, 1, "ab", false),
    ("a fixed one of 2 with two bytes", Kind::Fixed, 2, "ab", true),
    ("a fixed one of 3 with two bytes", Kind::Fixed, 3, "ab", false),
    ("a fixed one of 1 with two bytes", Kind::Fixed, 1, "ab", false),
];

// Whether a shape and bytes are a buffer.
fn is_buffer(alloc: Global, kind: Kind, total: usize, bytes: &str) -> Result<bool, Why> {
    Ok(spec_of(alloc, (kind, total, (0, total)), bytes)?.is_some())
}

// One row.
fn bound_row(
    alloc: Global,
    (_, kind, total, bytes, want): (&str, Kind, usize, &str, bool),
) -> Result<(), Why> {
    is_like(is_buffer(alloc, kind, total, bytes)? == want)
}

#[test]
fn a_fixed_buffer_is_full(rt: HostRuntime) -> Result<(), OutOfMemory> {
    for each in BOUNDS {
        ended(&rt, each.0, bound_row(rt.alloc(), *each));
    }
    Ok(())
}
