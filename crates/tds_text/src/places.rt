// Where the bytes of characters stand among lanes of bytes, as tables by masks of units, and the masks of the first units.
ghost use Rattle.std.specs.Prelude.{◌≡◌, ◌<◌, [], get_or};

// The 16 first of these places.
macro_rules! row {
    ($a:tt $b:tt $c:tt $d:tt $e:tt $f:tt $g:tt $h:tt $i:tt $j:tt $k:tt $l:tt $m:tt $n:tt $o:tt $p:tt $($more:tt)*) => {
        [$a, $b, $c, $d, $e, $f, $g, $h, $i, $j, $k, $l, $m, $n, $o, $p]
    };
}

// The rows of a table by the masks of so many bits. Each row has two choices first: a bit takes one of them, the first
// if it is clear and the second if it is set, and puts it behind the others.
macro_rules! rows {
    ([] $([$([$($place:tt)*])*])*) => {
        [$(row!($($($place)*)* 0 0 0 0 0 0 0 0 0 0 0 0)),*]
    };
    ([$bit:tt $($bits:tt)*] $([[$clear:tt $set:tt] $($others:tt)*])*) => {
        rows!([$($bits)*] $([$($others)* $clear])* $([$($others)* $set])*)
    };
}

// For eight units of two bytes each, by the mask of those whose text has two: the places of the bytes of their texts, and
// then zeros. A text of one byte is the first of its unit's.
static PAIRS: [[u8; 16]; 256] = rows!([0 1 2 3 4 5 6 7] [
    [[0] [0 1]]
    [[2] [2 3]]
    [[4] [4 5]]
    [[6] [6 7]]
    [[8] [8 9]]
    [[10] [10 11]]
    [[12] [12 13]]
    [[14] [14 15]]
]);

// For four units of four bytes each, by the mask of those whose text has more than one, and 16 times the mask of those
// whose text has three: the places of the bytes of their texts, and then zeros. A text of one byte is the first of its
// unit's, one of two is the last and the second, and one of three is the last three, the second at the end.
static QUADS: [[u8; 16]; 256] = rows!([0 1 2 3 4 5 6 7] [
    [[[0] [2 3 1]] [[3 1] [2 3 1]]]
    [[[4] [6 7 5]] [[7 5] [6 7 5]]]
    [[[8] [10 11 9]] [[11 9] [10 11 9]]]
    [[[12] [14 15 13]] [[15 13] [14 15 13]]]
]);

// For a number of units, eight at most: all bits of so many of the first of eight, and none of the others.
static FIRST: [[u16; 8]; 9] = [
    [0, 0, 0, 0, 0, 0, 0, 0],
    [0xFFFF, 0, 0, 0, 0, 0, 0, 0],
    [0xFFFF, 0xFFFF, 0, 0, 0, 0, 0, 0],
    [0xFFFF, 0xFFFF, 0xFFFF, 0, 0, 0, 0, 0],
    [0xFFFF, 0xFFFF, 0xFFFF, 0xFFFF, 0, 0, 0, 0],
    [0xFFFF, 0xFFFF, 0xFFFF, 0xFFFF, 0xFFFF, 0, 0, 0],
    [0xFFFF, 0xFFFF, 0xFFFF, 0xFFFF, 0xFFFF, 0xFFFF, 0, 0],
    [0xFFFF, 0xFFFF, 0xFFFF, 0xFFFF, 0xFFFF, 0xFFFF, 0xFFFF, 0],
    [
        0xFFFF, 0xFFFF, 0xFFFF, 0xFFFF, 0xFFFF, 0xFFFF, 0xFFFF, 0xFFFF,
    ],
];

// The places of the texts of eight short characters, by the mask of the wide ones.
#[inline(always)]
pub(crate) fn pair_places(wide: u64) -> [u8; 16]
    requires { wide < 256 }
    ensures { result ≡ get_or PAIRS wide [] }
{
    PAIRS[wide as usize]
}

// The places of the texts of four characters, by the masks of the wide and the long ones.
#[inline(always)]
pub(crate) fn quad_places(index: usize) -> [u8; 16]
    requires { index < 256 }
    ensures { result ≡ get_or QUADS index [] }
{
    QUADS[index]
}

// All bits of the first `n` of eight units, and none of the others.
#[inline(always)]
pub(crate) fn first_bits(n: usize) -> [u16; 8]
    requires { n < 9 }
    ensures { result ≡ get_or FIRST n [] }
{
    FIRST[n]
}
