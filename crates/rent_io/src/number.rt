// Numbers that are read from their bytes, in either order.
ghost use Rattle.std.specs.Prelude.{◌≡◌, ℕ, List, Bool, length, if◌then◌else◌};
ghost use Rattle.std.specs.Int.{w8, w16, w32, w64, w128, from_be_bytes, from_le_bytes, cast_signed};

/// A number that so many bytes stand for (not in monoio).
pub trait Number: Drop {
    /// How many bytes.
    ghost SIZE: { ℕ };

    const SIZE: usize;

    /// The number that bytes stand for: the least significant byte is the first one, or the last one.
    ghost value: { Bool → List ℕ → Self };

    /// The number that these bytes stand for.
    fn of(bytes: &[u8], little: bool) -> Self
        requires { length bytes.now ≡ SIZE }
        ensures { result ≡ value little bytes.now };
}

impl Number for u8 {
    ghost SIZE = { 1 };

    const SIZE: usize = 1;

    ghost value = { λ little bytes. if little then from_le_bytes w8 bytes else from_be_bytes w8 bytes };

    fn of(bytes: &[u8], little: bool) -> u8 {
        let mut all = [0u8; 1];
        all.copy_from_slice(bytes);
        if little {
            u8::from_le_bytes(all)
        } else {
            u8::from_be_bytes(all)
        }
    }
}

impl Number for i8 {
    ghost SIZE = { 1 };

    const SIZE: usize = 1;

    ghost value = { λ little bytes. cast_signed w8 (if little then from_le_bytes w8 bytes else from_be_bytes w8 bytes) };

    fn of(bytes: &[u8], little: bool) -> i8 {
        let mut all = [0u8; 1];
        all.copy_from_slice(bytes);
        if little {
            i8::from_le_bytes(all)
        } else {
            i8::from_be_bytes(all)
        }
    }
}

impl Number for u16 {
    ghost SIZE = { 2 };

    const SIZE: usize = 2;

    ghost value = { λ little bytes. if little then from_le_bytes w16 bytes else from_be_bytes w16 bytes };

    fn of(bytes: &[u8], little: bool) -> u16 {
        let mut all = [0u8; 2];
        all.copy_from_slice(bytes);
        if little {
            u16::from_le_bytes(all)
        } else {
            u16::from_be_bytes(all)
        }
    }
}

impl Number for i16 {
    ghost SIZE = { 2 };

    const SIZE: usize = 2;

    ghost value = { λ little bytes. cast_signed w16 (if little then from_le_bytes w16 bytes else from_be_bytes w16 bytes) };

    fn of(bytes: &[u8], little: bool) -> i16 {
        let mut all = [0u8; 2];
        all.copy_from_slice(bytes);
        if little {
            i16::from_le_bytes(all)
        } else {
            i16::from_be_bytes(all)
        }
    }
}

impl Number for u32 {
    ghost SIZE = { 4 };

    const SIZE: usize = 4;

    ghost value = { λ little bytes. if little then from_le_bytes w32 bytes else from_be_bytes w32 bytes };

    fn of(bytes: &[u8], little: bool) -> u32 {
        let mut all = [0u8; 4];
        all.copy_from_slice(bytes);
        if little {
            u32::from_le_bytes(all)
        } else {
            u32::from_be_bytes(all)
        }
    }
}

impl Number for i32 {
    ghost SIZE = { 4 };

    const SIZE: usize = 4;

    ghost value = { λ little bytes. cast_signed w32 (if little then from_le_bytes w32 bytes else from_be_bytes w32 bytes) };

    fn of(bytes: &[u8], little: bool) -> i32 {
        let mut all = [0u8; 4];
        all.copy_from_slice(bytes);
        if little {
            i32::from_le_bytes(all)
        } else {
            i32::from_be_bytes(all)
        }
    }
}

impl Number for u64 {
    ghost SIZE = { 8 };

    const SIZE: usize = 8;

    ghost value = { λ little bytes. if little then from_le_bytes w64 bytes else from_be_bytes w64 bytes };

    fn of(bytes: &[u8], little: bool) -> u64 {
        let mut all = [0u8; 8];
        all.copy_from_slice(bytes);
        if little {
            u64::from_le_bytes(all)
        } else {
            u64::from_be_bytes(all)
        }
    }
}

impl Number for i64 {
    ghost SIZE = { 8 };

    const SIZE: usize = 8;

    ghost value = { λ little bytes. cast_signed w64 (if little then from_le_bytes w64 bytes else from_be_bytes w64 bytes) };

    fn of(bytes: &[u8], little: bool) -> i64 {
        let mut all = [0u8; 8];
        all.copy_from_slice(bytes);
        if little {
            i64::from_le_bytes(all)
        } else {
            i64::from_be_bytes(all)
        }
    }
}

impl Number for u128 {
    ghost SIZE = { 16 };

    const SIZE: usize = 16;

    ghost value = { λ little bytes. if little then from_le_bytes w128 bytes else from_be_bytes w128 bytes };

    fn of(bytes: &[u8], little: bool) -> u128 {
        let mut all = [0u8; 16];
        all.copy_from_slice(bytes);
        if little {
            u128::from_le_bytes(all)
        } else {
            u128::from_be_bytes(all)
        }
    }
}

impl Number for i128 {
    ghost SIZE = { 16 };

    const SIZE: usize = 16;

    ghost value = { λ little bytes. cast_signed w128 (if little then from_le_bytes w128 bytes else from_be_bytes w128 bytes) };

    fn of(bytes: &[u8], little: bool) -> i128 {
        let mut all = [0u8; 16];
        all.copy_from_slice(bytes);
        if little {
            i128::from_le_bytes(all)
        } else {
            i128::from_be_bytes(all)
        }
    }
}
