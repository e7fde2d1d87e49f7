ghost use Rattle.std.specs.Prelude.{◌≡◌, true, false};
ghost use Rattle.alto_answers.specs.Answers.{client_of};
ghost use Rattle.alto_serve.specs.Events.{IsGrown};
ghost use Rattle.alto_serve.specs.Turns.{setting_of};
ghost use Rattle.alto_doors.specs.Door.{is_served};
ghost use Rattle.alto_doors.specs.Workers.{HasServed, IsLeft, taken};

use crate::door::Door;
use crate::state::MOST_FAULTS;
use alto_answers::Side;
use alto_http::Failed;
use alto_serve::{Clock, Office, serve_link};
use std::alloc::Global;
use std::sync::Wait;

/// Serves the connections of a door one after another, whatever the end of each, until none comes any more or 1,000
/// accepts have failed. Each link is served by `serve_link` and given back; the next edge is waited for, `turns` times
/// at most.
pub fn serve_door<H: Wait, F: Office, D: Door, C: Clock>(
    rt: &H,
    alloc: Global,
    office: &mut F,
    door: &mut D,
    clock: &C,
    side: Side,
    turns: u32,
)
    requires none_out { (D.state door.old).is_out ≡ false }

    ensures done { is_served (D.state door.new) ≡ true }
    ensures left { IsLeft (D.state door.old) (D.state door.new) }

    // The connections that the door gave were served, each as `serve_link` says.
    ensures served { HasServed D.Link.left D.Link.out
        (λ peer. setting_of (client_of side peer) (C.tells clock.now) F.alone turns)
        (D.left door.old) (D.left door.new) (F.known office.old) (F.known office.new) }

    ensures book { IsGrown (F.known office.new).seen (F.known office.old).seen }
    ensures backed { F.is_backed office.old → F.is_backed office.new }
{
    let mut failed = 0;
    for _ in rt.forever() {
        match serve_next(alloc, office, door, clock, side, turns) {
            Ok(true) => {}
            Ok(false) => return,
            Err(_) => {
                failed += 1;
                if failed == MOST_FAULTS {
                    return;
                }
            }
        }
    }
    unreachable!()
}

/// Accepts once, and serves the connection that comes. Tells whether one came; none does once the door has ended.
fn serve_next<F: Office, D: Door, C: Clock>(
    alloc: Global,
    office: &mut F,
    door: &mut D,
    clock: &C,
    side: Side,
    turns: u32,
) -> Result<bool, Failed>
    requires none_out { (D.state door.old).is_out ≡ false }

    ensures noted { D.state door.new ≡ taken result (D.state door.old) }
    ensures served { HasServed D.Link.left D.Link.out
        (λ peer. setting_of (client_of side peer) (C.tells clock.now) F.alone turns)
        (D.left door.old) (D.left door.new) (F.known office.old) (F.known office.new) }

    ensures book { IsGrown (F.known office.new).seen (F.known office.old).seen }
    ensures backed { F.is_backed office.old → F.is_backed office.new }
{
    let Some((link, peer)) = door.accept()? else {
        return Ok(false);
    };
    let served = serve_link(alloc, office, link, clock, side, peer, turns);
    door.give_back(served);
    Ok(true)
}
