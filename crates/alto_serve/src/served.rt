ghost use Rattle.std.specs.Prelude.{◌≡◌};
ghost use Rattle.alto_answers.specs.Answers.{client_of};
ghost use Rattle.alto_serve.specs.Connections.{Serves, state};
ghost use Rattle.alto_serve.specs.Events.{IsGrown};
ghost use Rattle.alto_serve.specs.Steps.{reads_at, writes_at};
ghost use Rattle.alto_serve.specs.Turns.{setting_of};

use crate::clock::Clock;
use crate::end::End;
use crate::office::Office;
use crate::serve::serve_conn;
use alto_addr::Addr;
use alto_answers::Side;
use alto_http::Link;
use std::alloc::Global;

/// A link whose connection was served to its end. `serve_link` alone makes one.
#[derive(Drop)]
pub struct Served<L> {
    link: L,
    end: End,
}

impl<L> Served<L> {
    /// How the connection ended.
    pub fn end(&self) -> End
        ensures { result ≡ self.now.end }
    {
        self.end
    }

    /// The link, as the connection left it.
    pub fn link(&self) -> &L
        ensures { result.now ≡ self.now.link }
    {
        &self.link
    }
}

/// Serves the connection of a link to its end, as `serve_conn` does, and gives the link back with that end.
pub fn serve_link<F: Office, L: Link, C: Clock>(
    alloc: Global,
    office: &mut F,
    link: L,
    clock: &C,
    side: Side,
    peer: Option<Addr>,
    most_waits: u32,
) -> Served<L>
    ensures served { Serves result.end (setting_of (client_of side peer) (C.tells clock.now) F.alone most_waits)
        (state (F.known office.old) (L.left link) (L.out link))
        (state (F.known office.new) (L.left result.link) (L.out result.link)) }

    ensures reads { L.failed_reads result.link ≡ reads_at result.end (L.failed_reads link) }
    ensures writes { L.failed_writes result.link ≡ writes_at result.end (L.failed_writes link) }
    ensures book { IsGrown (F.known office.new).seen (F.known office.old).seen }
    ensures backed { F.is_backed office.old → F.is_backed office.new }
    ensures clean { F.is_clean office.new → F.is_clean office.old }
{
    let mut link = link;
    let end = serve_conn(alloc, office, &mut link, clock, side, peer, most_waits);
    Served { link, end }
}
