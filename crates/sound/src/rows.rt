// Page entries, row by row: each by itself, the pins of a row, and how often each frame stands.
ghost use Rattle.std.specs.Prelude.{◌≡◌, ◌&&◌, ◌+◌, ◌≤◌, ◌<◌, ltb, length};
ghost use Rattle.std.specs.List.{sum_by};
ghost use Rattle.sound.specs.Rows.{entry_ok, row_next, walked, row_of, row_test, more_of, mark_entry, mark_run, mark_rows, rows_ok, frames_ok, one_if};
ghost use Rattle.tables.specs.Tables.{entry_of};

use crate::Whole;

// What the entries of a row must keep to: their node is hidden or not and so many pages long, and so many frames are there.
#[derive(Clone, Copy)]
struct Limits {
    hidden: bool,
    size: u32,
    frames: usize,
    ghost few: { frames ≤ 1024 },
}

// A row so far: its entries are good, their pins add up to this, and so many are there. A flag and no None: the rest is counted all the same.
#[derive(Clone, Copy)]
struct Row {
    ok: bool,
    pins: u32,
    seen: u32,
}

impl Limits {
    #[tactic(auto, unfolding(crate::specs::Rows::entry_ok))]
    fn entry_ok(self, page: u32, e: u32) -> bool
        ensures { result ≡ entry_ok self.hidden self.size self.frames page e }
    {
        let low = (e % 4096) as usize;
        let split = self.hidden & (e < 12288);
        let owned = !self.hidden & (e < 524288) & (e / 4096 % 4 == 0);
        (e == 0) | ((1 <= low) & (low <= self.frames) & (page < self.size) & (split | owned))
    }
}

// How many of a row's entries are there.
fn count_present(entries: &[u32]) -> u32
    requires { length entries.now ≤ 64 }
    ensures { result ≡ sum_by one_if entries.now }
{
    entries.iter().map(|e| u32::from(*e != 0)).sum()
}

// One standing more; two stands for more than one.
fn more(mark: u8) -> u8
    ensures { result ≡ more_of mark }
{
    if mark == 0 { 1 } else { 2 }
}

pub fn mark_entry(marks: &mut [u8], e: u32)
    ensures { marks.new ≡ mark_entry marks.old e }
{
    let low = (e % 4096) as usize;
    if e != 0 && low < marks.len() {
        marks[low] = more(marks[low]);
    }
}

// A frame with no tag and no pins, as most entries are: good below the size, and marked without a test of the index.
fn plain_step(marks: &mut [u8], e: u32, page: u32, size: u32, row: Row) -> Row
    requires { (1 ≤ e) × (e < 4096) × (e < length marks.old) × (row.seen < 64) }
    ensures { (result ≡ row_of (row.ok && ltb page size) row.pins (row.seen + 1)) × (marks.new ≡ mark_entry marks.old e) }
{
    marks[e as usize] = more(marks[e as usize]);
    Row {
        ok: row.ok & (page < size),
        seen: row.seen + 1,
        ..row
    }
}

// An entry is tested, its pins are counted and its frame is marked; an absent one is passed over at once.
fn entry_step(marks: &mut [u8; 1025], e: u32, page: u32, limits: Limits, row: Row) -> Row
    requires { (row.pins ≤ 16777152) × (row.seen < 64) }
    ensures { (result ≡ row_next limits.hidden limits.size limits.frames page e row) × (marks.new ≡ mark_entry marks.old e) }
{
    if e == 0 {
        return row;
    }
    if e as usize <= limits.frames {
        return plain_step(marks, e, page, limits.size, row);
    }
    mark_entry(marks, e);
    Row {
        ok: row.ok & limits.entry_ok(page, e),
        pins: row.pins + e / 16384,
        seen: row.seen + 1,
    }
}

// The walk ends with the row's last entry, so that short and empty rows cost little.
fn walk_row(whole: Whole, node: u32, limits: Limits, marks: &mut [u8; 1025]) -> Row
    requires { node < 64 }
    ensures { (result ≡ walked limits.hidden limits.size limits.frames whole.entry.pages.now node 64)
        × (marks.new ≡ mark_run (entry_of whole.entry.pages.now node) 64 marks.old) }
{
    let start = node as usize * 64;
    let entries = &whole.pages[start..start + 64];
    let count = count_present(entries);
    let mut row = Row {
        ok: true,
        pins: 0,
        seen: 0,
    };
    // As a `for` with a break the test of a pool with 1,000 frames in use took 3.0 µs in place of 2.4.
    let mut page: u32 = 0;
    while row.seen < count {
        row = entry_step(marks, entries[page as usize], page, limits, row);
        page += 1;
    }
    row
}

fn row_test(whole: Whole, node: u32, marks: &mut [u8; 1025]) -> bool
    requires { node < 64 }
    ensures { (result ≡ row_test whole.entry.nodes.now whole.entry.pages.now (length whole.entry.used.now) node) × (marks.new ≡ mark_run (entry_of whole.entry.pages.now node) 64 marks.old) }
{
    let n = tables::record_at(whole.nodes, node);
    let limits = Limits {
        hidden: n.is_hidden(),
        size: n.size,
        frames: whole.used.len(),
    };
    let row = walk_row(whole, node, limits, marks);
    row.ok & (row.pins <= n.pin_count)
}

pub fn rows_ok(whole: Whole, marks: &mut [u8; 1025]) -> bool
    ensures { (result ≡ rows_ok whole.entry.nodes.now whole.entry.pages.now (length whole.entry.used.now)) × (marks.new ≡ mark_rows whole.entry.pages.now 64 marks.old) }
{
    let mut ok = true;
    for node in 0..64 {
        ok &= row_test(whole, node, marks);
    }
    ok
}

// Each frame is in use exactly if it stands, and stands at most once. No early exit, so that the compiler tests many at once.
pub fn frames_ok(used: &[u8], marks: &[u8]) -> bool
    requires { length used.now < length marks.now }
    ensures { result ≡ frames_ok used.now marks.now }
{
    used.iter().zip(&marks[1..]).fold(true, |ok, (used, mark)| ok & (used == mark) & (*used <= 1))
}
