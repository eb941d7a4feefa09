// Table 17 as the code counts. proofs/Laws/Printed.antt holds it to the table as printed.
ghost use Rattle.std.specs.Prelude.{◌≡◌, ◌<◌};
ghost use Rattle.weights.specs.Inner.{Counted};
ghost use Rattle.weights.specs.Table17.{row_of};

#[derive(Clone, Copy)]
pub struct Row {
    // The first band of J_b.
    pub first: usize,
    // H_b.
    pub height: usize,
    // 180 / H_b.
    pub part: u16,
    // 720 T_b.
    pub lift: u16,
    // 720 (A(b) + 5).
    pub floor: u16,
}

// The first band of J_b, then H_b, T_b and A(b) as printed.
macro_rules! rows {
    ($($first:literal $height:literal $lift:literal $floor:literal;)*) => {
        [$(Row {
            first: $first,
            height: $height,
            part: 180 / $height,
            lift: 720 * $lift,
            floor: 720 * ($floor + 5),
        }),*]
    };
}

static ROWS: [Row; 20] = rows! {
    0 1 3 8;
    1 1 3 6;
    2 1 3 3;
    3 1 3 3;
    4 1 3 3;
    5 1 3 3;
    6 1 3 3;
    7 1 3 3;
    8 1 3 3;
    9 1 3 3;
    10 2 4 3;
    12 2 4 3;
    14 2 4 3;
    16 2 5 3;
    18 2 5 3;
    20 4 6 3;
    24 3 6 4;
    27 3 6 5;
    30 5 7 7;
    35 9 8 11;
};

// The row b of each band p, p in J_b.
static PLACES: [u8; 44] = [
    0, 1, 2, 3, 4, 5, 6, 7, 8, 9, 10, 10, 11, 11, 12, 12, 13, 13, 14, 14, 15, 15, 15, 15, 16, 16,
    16, 17, 17, 17, 18, 18, 18, 18, 18, 19, 19, 19, 19, 19, 19, 19, 19, 19,
];

impl Row {
    pub fn at(b: usize) -> Row
        requires { b < 20 }
        ensures { Counted b result }
    {
        ROWS[b]
    }
}

pub fn row_of(p: usize) -> usize
    requires { p < 44 }
    ensures { (result ≡ row_of p) × (result < 20) }
{
    usize::from(PLACES[p])
}
