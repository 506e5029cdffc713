// Roads relaxed: a road whose offer is less than the label of its end lowers it, and the end waits.
#![tactic(auto)]

ghost use Rattle.std.specs.Prelude.{◌≡◌};
ghost use Rattle.roads.specs.Dist.{relax, relax_all};
ghost use Rattle.road_relax.specs.Relaxing.{shown_road, shown_roads, Leaves, Fan, wake, wake_all};

use layout::RoadRecord;
use waiting::Waiting;

// The road at `at`, which leaves `u`, is relaxed. The labels are lent apart from the waiting vertices: they are the C caller's own array.
fn relax_road(mem: &[u32], at: usize, u: usize, labels: &mut [u32; 4096], waiting: &mut Waiting)
    requires { Leaves mem.now at u }
    ensures labels_after { labels.new ≡ relax (shown_road mem.now at) labels.old }
    ensures keys_after { waiting.new ≡ wake (shown_road mem.now at) labels.old waiting.old }
{
    let to = mem[at + RoadRecord::TO] as usize;
    let offer = u64::from(labels[u]) + u64::from(mem[at + RoadRecord::WEIGHT]);
    if offer < u64::from(labels[to]) {
        let label = offer as u32;
        labels[to] = label;
        waiting.wait_with(to, label);
    }
}

// The `k` roads from `at` on, which leave `u`, are relaxed in order.
pub fn relax_out(
    mem: &[u32],
    at: usize,
    k: usize,
    u: usize,
    labels: &mut [u32; 4096],
    waiting: &mut Waiting,
)
    requires { Fan mem.now at k u }
    ensures labels_after { labels.new ≡ relax_all (shown_roads mem.now at k) labels.old }
    ensures keys_after { waiting.new ≡ wake_all (shown_roads mem.now at k) labels.old waiting.old }
{
    for i in 0..k {
        relax_road(mem, at + RoadRecord::WORDS * i, u, labels, waiting);
    }
}
