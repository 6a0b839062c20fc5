// Plain data of parts, the parts that are built of it, and stores from the first part on.
ghost use Rattle.std.specs.Prelude.{◌≡◌, ◌≤◌, length, IfOk};
ghost use Rattle.rent_buf.specs.Parts.{rooms_of, parts_stored};

use crate::tests::why::{Why, ended, is_like, list_of};
use rent_buf::{ByteList, HeldBuf, IoVecBufMut, OutOfMemory, PartsSpec};
use std::alloc::Global;

// Rooms with the bytes of their parts.
fn pairs_of(alloc: Global, parts: &[(usize, &str)]) -> Result<Vec<(usize, ByteList)>, Why> {
    let mut pairs = Vec::new(alloc);
    for &(room, text) in parts {
        pairs.push((room, list_of(alloc, text)?))?;
    }
    Ok(pairs)
}

// The spec of parts of these rooms and texts, if it is one.
fn spec_of(alloc: Global, parts: &[(usize, &str)]) -> Result<Option<PartsSpec>, Why> {
    Ok(PartsSpec::new(pairs_of(alloc, parts)?))
}

// The spec of what was built of a spec is that spec.
fn rebuilt(spec: PartsSpec) -> Result<PartsSpec, OutOfMemory>
    ensures { IfOk result (λ again. again ≡ spec) }
{
    Ok(spec.build()?.into_spec())
}

// What the row shows, the room and the bytes of each part, and whether they are parts.
#[rattlefmt::skip]
const SPECS: &[(&str, &[(usize, &str)], bool)] = &[
    ("rooms above the bytes", &[(3, "ab"), (2, ""), (1, "c")], true),
    ("full parts", &[(2, "ab"), (0, ""), (1, "c")], true),
    ("bytes past their room", &[(2, "ab"), (2, ""), (0, "c")], false),
    ("rooms past usize", &[(18446744073709551615, "ab"), (0, ""), (1, "c")], false),
];

// Whether there are three parts, of which the first has this room and these bytes.
fn are_three(spec: &PartsSpec, room: usize, text: &str) -> bool {
    spec.len() == 3 && spec.room(0) == room && spec.bytes(0) == text.as_bytes()
}

// Whether specs are equal, also where a request holds them.
fn are_equal(spec: PartsSpec, again: PartsSpec) -> bool {
    HeldBuf::Parts(again) == HeldBuf::Parts(spec)
}

// What is built of a spec has its spec.
fn built(spec: PartsSpec, held: &[(usize, &str)]) -> Result<(), Why> {
    if held.len() != 3 {
        return Err(Why::Unmet);
    }
    let (room, text) = held[0];
    let again = rebuilt(spec.try_clone()?)?;
    is_like(are_three(&spec, room, text))?;
    is_like(are_three(&again, room, text))?;
    is_like(are_equal(spec, again))
}

// One row.
fn spec_row(alloc: Global, held: &[(usize, &str)], are_parts: bool) -> Result<(), Why> {
    let spec = spec_of(alloc, held)?;
    is_like(spec.is_some() == are_parts)?;
    match spec {
        Some(spec) => built(spec, held),
        None => Ok(()),
    }
}

#[test]
fn parts_are_built_of_a_spec(rt: HostRuntime) -> Result<(), OutOfMemory> {
    for &(name, held, are_parts) in SPECS {
        ended(&rt, name, spec_row(rt.alloc(), held, are_parts));
    }
    Ok(())
}

// Fills parts from the first one on.
fn fill_front<B: IoVecBufMut>(parts: &mut B, bytes: &[u8])
    requires { length bytes.now ≤ rooms_of (B.held parts.old) }
    ensures { B.held parts.new ≡ parts_stored (B.held parts.old) bytes.now }
{
    parts.store_front(bytes);
}

// What the row shows, the room and the bytes of each part, what is stored, and the parts then.
#[rattlefmt::skip]
const FRONTS: &[(&str, &[(usize, &str)], &str, &[(usize, &str)])] = &[
    ("nothing leaves all parts", &[(3, "abc"), (0, ""), (2, "de")], "", &[(3, "abc"), (0, ""), (2, "de")]),
    ("less than the room shortens the part", &[(3, "abc"), (0, ""), (2, "de")], "x", &[(3, "x"), (0, ""), (2, "de")]),
    ("parts behind a filled one stay", &[(3, "abc"), (0, ""), (2, "de")], "xyz", &[(3, "xyz"), (0, ""), (2, "de")]),
    ("a part with no room takes nothing", &[(3, "abc"), (0, ""), (2, "de")], "xyzw", &[(3, "xyz"), (0, ""), (2, "w")]),
    ("all parts are filled", &[(3, "abc"), (0, ""), (2, "de")], "xyzwv", &[(3, "xyz"), (0, ""), (2, "wv")]),
    ("rooms are filled in order", &[(2, ""), (3, ""), (4, "z")], "abcd", &[(2, "ab"), (3, "cd"), (4, "z")]),
];

// The spec of parts after a store, if they have room.
fn stored(spec: PartsSpec, bytes: &[u8]) -> Result<PartsSpec, Why> {
    let mut parts = spec.build()?;
    if parts.total_room() < bytes.len() {
        return Err(Why::Unmet);
    }
    fill_front(&mut parts, bytes);
    Ok(parts.into_spec())
}

// One row.
fn front_row(
    alloc: Global,
    held: &[(usize, &str)],
    bytes: &str,
    want: &[(usize, &str)],
) -> Result<(), Why> {
    let Some(spec) = spec_of(alloc, held)? else {
        return Err(Why::Unmet);
    };
    let spec = stored(spec, bytes.as_bytes())?;
    is_like(spec_of(alloc, want)? == Some(spec))
}

#[test]
fn stores_begin_at_the_first_part(rt: HostRuntime) -> Result<(), OutOfMemory> {
    for &(name, held, bytes, want) in FRONTS {
        ended(&rt, name, front_row(rt.alloc(), held, bytes, want));
    }
    Ok(())
}
