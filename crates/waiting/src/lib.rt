// The vertices that wait in a search: each has a key, which is FAR where it does not wait. The least is taken, for speed: `tree` holds the least key below each of
// its nodes, with its vertex, four to a node, and no proof rests on what it holds.
#![tactic(auto)]

ghost use Rattle.std.specs.Prelude.{◌≡◌, ◌+◌, ◌*◌, ◌/◌, ◌≤◌, ◌<◌, set, replicate};
ghost use Rattle.words.specs.Limits.{FAR, most_vertices};
ghost use Rattle.words.specs.Lists.{word};
ghost use Rattle.waiting.specs.Waiting.{Picked};

use far_sums::FAR;
use std::marker::Model;

// What every node of the tree shows before a vertex waits: above each key with its vertex.
pub const NO_KEY: u64 = u64::MAX;

// A key with its vertex, which is an index here, with its limit in a clause of each function. The lesser of two has the lesser key. Not `row_words::numbered`, which is of a memory's rows: a search knows none.
fn keyed(key: u32, v: usize) -> u64
    requires { v < 4096 }
    ensures { result ≡ key * 65536 + v }
{
    u64::from(key) * 65536 + v as u64
}

// The least of four keys, with its vertex: what a node at the bottom of the tree shows.
fn least_key(keys: &[u32; 4096], v: usize) -> u64
    requires { v + 4 ≤ 4096 }
    ensures { result ≤ word keys.now v * 65536 + v }
{
    let first = keyed(keys[v], v).min(keyed(keys[v + 1], v + 1));
    let second = keyed(keys[v + 2], v + 2).min(keyed(keys[v + 3], v + 3));
    first.min(second)
}

// A node above a key that fell.
fn lower_node(tree: &mut [u64; 1365], node: usize, new: u64)
    requires { node < 1365 }
{
    tree[node] = new.min(tree[node]);
}

// The key of `v` fell to `key`: the nodes above it, from the bottom up. Each level starts after those above it (1 + 4 + 16 + 64 + 256 = 341), and a node has four below it.
// Written out level by level, as `raise` is: no count and no branch is left where a search spends most of its time, and a table of the levels with a loop is as long.
fn lower(tree: &mut [u64; 1365], v: usize, key: u32)
    requires { v < 4096 }
{
    let new = keyed(key, v);
    lower_node(tree, 341 + v / 4, new);
    lower_node(tree, 85 + v / 16, new);
    lower_node(tree, 21 + v / 64, new);
    lower_node(tree, 5 + v / 256, new);
    lower_node(tree, 1 + v / 1024, new);
    lower_node(tree, 0, new);
}

// Node `i` of the level that starts at `level` shows `x` now. What its parent shows: the least of it and its three neighbours.
fn raise_node(tree: &mut [u64; 1365], level: usize, i: usize, x: u64) -> u64
    requires { level + i / 4 * 4 + 4 ≤ 1365 }
    ensures { result ≤ x }
{
    let group = level + i / 4 * 4;
    let at = i % 4;
    tree[group + at] = x;
    let next = tree[group + (at + 1) % 4].min(tree[group + (at + 2) % 4]);
    next.min(tree[group + (at + 3) % 4].min(x))
}

// `v` has ceased to wait: the nodes above it, from the bottom up.
fn raise(keys: &[u32; 4096], tree: &mut [u64; 1365], v: usize)
    requires { v < 4096 }
{
    let mut x = least_key(keys, v / 4 * 4);
    x = raise_node(tree, 341, v / 4, x);
    x = raise_node(tree, 85, v / 16, x);
    x = raise_node(tree, 21, v / 64, x);
    x = raise_node(tree, 5, v / 256, x);
    tree[0] = raise_node(tree, 1, v / 1024, x);
}

// Which vertices wait: the key of each. FAR, the top of the order, and no Option: so the least of keys is found without a test. The tree stands first: so no store of a key can be one of its root, which stays in a register.
#[derive(Drop)]
pub struct Waiting {
    tree: [u64; 1365],
    keys: [u32; 4096],
}

impl Model for Waiting {
    ghost use Rattle.std.specs.Prelude.{List, ℕ};

    ghost Value = { List ℕ };

    ghost view = { λ w. w.keys };
}

impl Waiting {
    // None waits.
    pub fn none() -> Waiting
        ensures { result ≡ replicate most_vertices FAR }
    {
        Waiting {
            tree: [NO_KEY; 1365],
            keys: [FAR; 4096],
        }
    }

    // `v` waits from now on, with this key.
    pub fn wait_with(&mut self, v: usize, key: u32)
        requires { v < 4096 }
        ensures { self.new ≡ set self.old v key }
    {
        self.keys[v] = key;
        lower(&mut self.tree, v, key);
    }

    // `v` is taken, and ceases to wait.
    pub fn take(&mut self, v: usize)
        requires { v < 4096 }
        ensures { self.new ≡ set self.old v FAR }
    {
        self.keys[v] = FAR;
        raise(&self.keys, &mut self.tree, v);
    }

    // A vertex below `n` that waits, if one does. The guess of the tree serves wherever it waits.
    pub fn pick(&self, n: usize) -> Option<usize>
        requires { n ≤ 4096 }
        ensures { Picked self.now n result }
    {
        let guess = (self.tree[0] % 65536) as usize;
        if guess < n && self.keys[guess] != FAR {
            return Some(guess);
        }
        self.keys[..n].iter().position(|key| *key != FAR)
    }
}
