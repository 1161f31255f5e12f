//! The pieces of critical cycles.

ghost use Rattle.std.specs.Prelude.{◌≡◌, map};
ghost use Rattle.cycles.specs.Blocks.{block_end, block_events, block_start, block_text, is_alone, row_at, row_in};

/// Two accesses of a core, and how the second comes before an access of the next core: the words, a number for what the
/// first is, 1 for a store and 0 for a load, one for the access that comes next, and how many events there are but
/// this. The last five are whole cycles of one address, with numbers of their own.
const BLOCKS: &[(&str, u8, u8, u8)] = &[
    ("PodRR Fre", 0, 1, 2),
    ("PodRR Fre Rfe", 0, 0, 3),
    ("PodRW Rfe", 0, 0, 2),
    ("PodRW Coe", 0, 1, 2),
    ("PodRW Coe Rfe", 0, 0, 3),
    ("PodWR Fre", 1, 1, 2),
    ("PodWR Fre Rfe", 1, 0, 3),
    ("MFencedWR Fre", 1, 1, 3),
    ("MFencedWR Fre Rfe", 1, 0, 4),
    ("PodWW Rfe", 1, 0, 2),
    ("PodWW Coe", 1, 1, 2),
    ("PodWW Coe Rfe", 1, 0, 3),
    ("PosWW Coi", 2, 2, 2),
    ("PosRW Rfi", 3, 3, 2),
    ("PosWR Fri", 4, 4, 2),
    ("PosRR Fre Rfe", 5, 5, 3),
    ("PosRW Coe Rfe", 6, 6, 3),
];

/// How many there are.
pub(crate) const BLOCK_COUNT: u8 = 17;

/// The row with a number.
fn row_in(rows: &[(&'static str, u8, u8, u8)], number: u8) -> (&'static str, u8, u8, u8)
    ensures { (result.0.now, result.1, result.2, result.3) ≡ row_in (map (λ r. (r.0.now, r.1, r.2, r.3)) rows.now)
        number }
{
    if number as usize >= rows.len() {
        return ("", 7, 7, 0);
    }
    rows[number as usize]
}

/// The row of a block.
fn row_at(block: u8) -> (&'static str, u8, u8, u8)
    ensures { (result.0.now, result.1, result.2, result.3) ≡ row_at block }
{
    row_in(BLOCKS, block)
}

/// The words of a block.
pub(crate) fn block_text(block: u8) -> &'static str
    ensures { result.now ≡ block_text block }
{
    row_at(block).0
}

/// The number of what its first access is.
pub(crate) fn block_start(block: u8) -> u8
    ensures { result ≡ block_start block }
{
    row_at(block).1
}

/// The number of what the access after it is.
pub(crate) fn block_end(block: u8) -> u8
    ensures { result ≡ block_end block }
{
    row_at(block).2
}

/// How many events it has.
pub(crate) fn block_events(block: u8) -> u8
    ensures { result ≡ block_events block }
{
    row_at(block).3
}

/// Whether it is a cycle alone.
pub(crate) fn is_alone(block: u8) -> bool
    ensures { result ≡ is_alone block }
{
    block_start(block) > 1
}
