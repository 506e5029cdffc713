// Tables of weights, row after row: one node tried as a halt between every two, and a table blanked. Each works in place on a table that stands
// anywhere in a memory, and leaves all other words.
#![tactic(auto)]

ghost use Rattle.std.specs.Prelude.{◌≡◌, ◌+◌, ◌*◌, ◌≤◌, ◌<◌, min, length, get_or, replicate};
ghost use Rattle.words.specs.Limits.{most_borders, FAR};
ghost use Rattle.table_rows.specs.Flat.{entry, through, blank, Holds, StartsWith, Begins, Tried, Blanked};

use far_sums::FAR;

// As many nodes as a part has rows; a table knows no parts, so the number is its own.
const MOST_NODES: usize = 128;

// The row `best` relaxed by `row`, which stands `x` away. Where that is no way, nothing is gained.
fn relax_row(best: &mut [u32], row: &[u32], x: u32)
    requires { length best.old ≤ length row.now }
    ensures { Begins (length best.old) (λ j. min (get_or best.old j 0) (x + get_or row.now j 0)) best.old best.new }
{
    if x == FAR {
        return;
    }
    // by its index: of a `zip` with `iter_mut` the proof knows no word afterwards
    for (j, least) in best.iter_mut().enumerate() {
        *least = x.saturating_add(row[j]).min(*least);
    }
}

// Every row of the table is relaxed by the row of `k`, of which `row` starts with a copy. A table here is the words cut for it and its number of nodes, and that there are
// words enough is a clause: no struct holds words that are lent to be written.
fn try_rows(table: &mut [u32], n: usize, k: usize, row: &[u32])
    requires { (k < n) × (n ≤ most_borders) × (n * n ≤ length table.old) × StartsWith n k table.old row.now }
    ensures { Holds n n table.new (through k (entry n table.old)) }
{
    // by its index: of `chunks_exact_mut` the proof knows no word afterwards
    for i in 0..n {
        let at = n * i;
        let x = table[at + k];
        relax_row(&mut table[at..at + n], row, x);
    }
}

// Node k is tried. A row cannot be lent while another is written, so that of k is copied first.
fn try_table(table: &mut [u32], n: usize, k: usize)
    requires { (k < n) × (n ≤ most_borders) × (n * n ≤ length table.old) }
    ensures { Holds n n table.new (through k (entry n table.old)) }
{
    let mut row = [0; MOST_NODES];
    let at = n * k;
    row[..n].copy_from_slice(&table[at..at + n]);
    try_rows(table, n, k, &row);
}

// FAR everywhere, and 0 from each node to itself.
fn blank_table(table: &mut [u32], n: usize)
    requires { (n ≤ most_borders) × (n * n ≤ length table.old) }
    ensures { Holds n n table.new blank }
{
    table.fill(FAR);
    for i in 0..n {
        table[n * i + i] = 0;
    }
}

// A table in a memory: where it starts, and how many nodes it has.
#[derive(Clone, Copy)]
pub struct Table {
    pub at: u32,
    pub nodes: u32,
}

impl Table {
    // Where the word of row i in column j stands.
    pub fn place(self, i: u32, j: u32) -> usize
        ensures { result ≡ self.at + self.nodes * i + j }
    {
        self.at as usize + self.nodes as usize * i as usize + j as usize
    }

    // Node k is tried.
    pub fn try_node(self, mem: &mut [u32], k: u32)
        ensures { Tried self.at self.nodes k mem.old mem.new }
    {
        let at = self.at as usize;
        let n = self.nodes as usize;
        let k = k as usize;
        if n <= MOST_NODES && k < n && at + n * n <= mem.len() {
            try_table(&mut mem[at..at + n * n], n, k);
        }
    }

    // FAR everywhere, and 0 from each node to itself.
    pub fn blank(self, mem: &mut [u32])
        ensures { Blanked self.at self.nodes mem.old mem.new }
    {
        let at = self.at as usize;
        let n = self.nodes as usize;
        if n <= MOST_NODES && at + n * n <= mem.len() {
            blank_table(&mut mem[at..at + n * n], n);
        }
    }
}
