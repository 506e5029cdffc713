// The desk program: reads a map, an opening record and calls from standard input, and writes what each gets. It only reads and writes, when the
// library tells it to; the steps between, and that what they give is right for any input, are in `desk_run`.
#![tactic(auto)]

ghost use Rattle.std.specs.Prelude.{◌≡◌, ◌≤◌, IfOk, OnErr, length};
ghost use Rattle.desk_calls.specs.Served.{most_buffer};
ghost use Rattle.desk_steps.specs.Step.{step_bytes};
ghost use Rattle.desk_run.specs.Desk.{window_bytes, InWindow};
ghost use Rattle.desk.specs.Ready.{FedFrom, Relieved};

use desk_run::Desk;
use packs::read_full;
use std::io;
use std::io::Read;

// Reads on where the window shows too little. An error is one of reading; the window keeps its length.
fn fed<R: Read>(input: &mut R, window: &mut [u8], desk: Desk) -> io::Result<Desk>
    requires { InWindow desk (length window.old) × (window_bytes ≤ length window.old) }
    ensures ok { IfOk result (λ fed. FedFrom desk fed (length window.old)) }
    ensures err { OnErr result (length window.new ≡ length window.old) }
{
    if !desk.hungry() {
        return Ok(desk);
    }
    let moved = desk.packed(window);
    let count = read_full(input, &mut window[moved.to..])?;
    Ok(moved.filled(window, count))
}

// Writes the lines that wait where there is too little room for more. An error is one of writing.
fn relieved(rt: &impl Print, out: &[u8], desk: Desk) -> io::Result<Desk>
    requires { (desk.out ≤ length out.now) × (step_bytes ≤ length out.now) × (length out.now ≤ most_buffer) }
    ensures { IfOk result (λ relieved. Relieved desk relieved (length out.now)) }
{
    if !desk.full(out) {
        return Ok(desk);
    }
    rt.write_all(&out[..desk.out])?;
    Ok(desk.emptied())
}

fn main(rt: HostRuntime) -> io::Result<()> {
    let mut window = [0u8; 65552];
    let mut memory = [0u32; 16384];
    let mut answer = [0u32; 96];
    let mut out = [0u8; 8192];
    let mut input = rt.reader();
    let mut desk = Desk::fresh();
    while !desk.over {
        desk = fed(&mut input, &mut window, desk)?;
        desk = relieved(&rt, &out, desk)?;
        desk = desk.step(&window, &mut memory, &mut answer, &mut out);
    }
    rt.write_all(&out[..desk.out])
}
