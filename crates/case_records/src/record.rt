// A record's fields, and the bytes that they are written as.
ghost use Rattle.std.specs.Prelude.{◌≡◌};
ghost use Rattle.case_records.specs.Written.{written};

pub const RECORD_LENGTH: usize = 16;

pub const NAME_LENGTH: usize = 12;

pub const NO_NAME: [u8; NAME_LENGTH] = [0; NAME_LENGTH];

#[derive(Clone, Copy)]
pub enum Record {
    /// The number of an option, how many values it has, and its name.
    Domain(u8, u8, [u8; NAME_LENGTH]),
    /// An option, its value, a later option, and the mask of the values that go with it.
    Row(u8, u8, u8, u32),
    /// An option, a later option, and p, q and c of p·x + q·y ≥ c.
    Inequality(u8, u8, i16, i16, i32),
    /// An option, its value, and the price.
    Price(u8, u8, u32),
    /// A letter, and a last byte that ought to be zero.
    Odd(u8, u8),
}

impl Record {
    pub fn bytes(self) -> [u8; RECORD_LENGTH]
        ensures { result ≡ written self }
    {
        match self {
            Record::Domain(number, count, name) => {
                let [a, b, c, d, e, f, g, h, i, j, k, l] = name;
                [b'O', number, count, 0, a, b, c, d, e, f, g, h, i, j, k, l]
            }
            Record::Row(i, a, j, mask) => {
                let [m0, m1, m2, m3] = mask.to_le_bytes();
                [b'R', i, a, j, m0, m1, m2, m3, 0, 0, 0, 0, 0, 0, 0, 0]
            }
            Record::Inequality(i, j, p, q, c) => {
                let [p0, p1] = p.to_le_bytes();
                let [q0, q1] = q.to_le_bytes();
                let [c0, c1, c2, c3] = c.to_le_bytes();
                [b'L', i, 0, j, p0, p1, q0, q1, c0, c1, c2, c3, 0, 0, 0, 0]
            }
            Record::Price(option, value, price) => {
                let [p0, p1, p2, p3] = price.to_le_bytes();
                [
                    b'P', option, value, 0, p0, p1, p2, p3, 0, 0, 0, 0, 0, 0, 0, 0,
                ]
            }
            Record::Odd(letter, last) => [letter, 0, 0, 0, 0, 0, 0, 0, 0, 0, 0, 0, 0, 0, 0, last],
        }
    }
}
