// How long a flow over the bounds decided and bare takes, on questions that are drawn. The times go to standard error, since
// they are never the same. bench/twin/bounds.rs asks the same questions.
#![tactic(auto)]

ghost use Rattle.std.specs.Prelude.{◌<◌};

use bounds::{Bare, Decided};
use drawn::Size;
use flow::Flow;
use timed::time_bound;

mod drawn;
mod timed;

// Both bounds on three sizes of parish, with one household in `share` set in A and as many in B.
fn time_share(rt: &HostRuntime, share: usize) -> anyhow::Result<()>
    requires { 0 < share }
{
    for (households, links) in [(32, 60), (64, 260), (128, 1022)] {
        let size = Size {
            households,
            links,
            share,
        };
        time_bound(rt, "flow over decided", &Flow(Decided), size)?;
        time_bound(rt, "flow over bare", &Flow(Bare), size)?;
    }
    Ok(())
}

fn main(rt: HostRuntime) -> anyhow::Result<()> {
    time_share(&rt, 4)?;
    time_share(&rt, 8)
}
