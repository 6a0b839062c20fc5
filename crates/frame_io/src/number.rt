// Numbers of variable length.
ghost use Rattle.std.specs.Prelude.{◌≡◌, ◌^◌, ◌≤◌, length};
ghost use Rattle.frame_io.specs.Number.{number_below, number_at, IsWithin};

// What stands at the front of bytes.
#[derive(Clone, Copy)]
pub(crate) enum Field {
    // A number, and how many bytes it takes.
    Whole(u64, usize),
    // Less than a whole number.
    Cut,
    // What begins no number.
    Wrong,
}

// The number below a limit that stands at the front of bytes.
fn number_under(limit: u64, bytes: &[u8]) -> Field
    requires { limit ≤ 2 ^ 32 }
    ensures value { result ≡ number_below limit bytes.now }
    ensures within { IsWithin limit (length bytes.now) result }
{
    let Some((first, rest)) = bytes.split_first() else {
        return Field::Cut;
    };
    let byte = *first as u64;
    if byte < 128 {
        if byte < limit {
            return Field::Whole(byte, 1);
        }
        return Field::Wrong;
    }
    if limit <= 128 {
        return Field::Wrong;
    }
    match number_under(limit / 128, rest) {
        Field::Whole(high, count) => {
            if high == 0 {
                return Field::Wrong;
            }
            Field::Whole(byte - 128 + 128 * high, count + 1)
        }
        Field::Cut => Field::Cut,
        Field::Wrong => Field::Wrong,
    }
}

// The number below 2^32 that stands at the front of bytes.
#[tactic(auto, unfolding(crate::specs::Number::number_at))]
pub(crate) fn number_of(bytes: &[u8]) -> Field
    ensures value { result ≡ number_at bytes.now }
    ensures within { IsWithin 4294967296 (length bytes.now) result }
{
    number_under(4294967296, bytes)
}
