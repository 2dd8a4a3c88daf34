// How far a path was gone, and what stood in its way.

ghost use Rattle.std.specs.Prelude.{◌≡◌, ◌≤◌, ◌^◌};
ghost use Rattle.tpm_rules.specs.Rule.{Breaks};
ghost use Rattle.tpol_choose.specs.Acts.{move_of};
ghost use Rattle.tpol_choose.specs.Lent.{client_of_lent};
ghost use Rattle.tpol_name.specs.Setups.{IsSight};

use crate::Block;
use crate::act::Act;
use crate::assert_move::AssertMove;
use crate::client::Client;
use crate::demands::meets;
use crate::goal::check_goal;
use crate::moves::check_move;
use crate::one_path::{at, check_whole};
use crate::session::{add_move, fresh_session};
use tpm_rules::Standing;

// The session that a path makes, the number of its moves, the first thing that stood in their way, and whether
// it went outside.
#[derive(Clone, Copy)]
pub struct Track {
    pub session: Standing,
    pub done: u32,
    pub block: Option<Block>,
    pub outside: bool,
    pub ghost early: { session.start ≤ 2 ^ 63 },
}

impl Track {
    ghost use Rattle.tpol_choose.specs.Tracks as spec;
    ghost use Rattle.tpol_choose.specs.Tracks.{IsTrack, TrackState};
    ghost use Rattle.tpol_choose.specs.Blocks as blocks;
    ghost use Rattle.tpol_choose.specs.Goals as goals;
    ghost use Rattle.tpol_choose.specs.Hopes as hopes;

    pub fn new(client: &Client<'_>) -> Track
        requires sight { IsSight client.now.sight.now }
        ensures { IsTrack result (spec.fresh_track (client_of_lent client.now)) }
    {
        Track {
            session: fresh_session(client.sight),
            done: 0,
            block: None,
            outside: false,
        }
    }

    // The same one move further.
    pub fn after(&self, client: &Client<'_>, act: &Act<'_>) -> Track
        requires sight { IsSight client.now.sight.now }
        ensures { (track : TrackState) → IsTrack self.now track
            → IsTrack result (spec.track_after (client_of_lent client.now) track
            (move_of act.now)) }
    {
        let mut next = *self;
        next.add(client, act);
        next
    }

    // Goes one move further.
    pub fn add(&mut self, client: &Client<'_>, act: &Act<'_>)
        requires sight { IsSight client.now.sight.now }
        ensures { (track : TrackState) → IsTrack self.old track
            → IsTrack self.new (spec.track_after (client_of_lent client.now) track
            (move_of act.now)) }
    {
        let number = self.done.saturating_add(1);
        self.block = self.block_with(client, number, act);
        self.done = number;
        add_move(&mut self.session, client.sight, act);
    }

    // The same by the assertion that comes next, if one does.
    pub fn add_first(&mut self, client: &Client<'_>, first: &Option<AssertMove<'_>>)
        requires sight { IsSight client.now.sight.now }
        ensures { (track : TrackState) → IsTrack self.old track
            → IsTrack self.new (spec.after_first (client_of_lent client.now) track first.now) }
    {
        if let Some(step) = first {
            self.add(client, &Act::Assert(*step));
        }
    }

    // The first thing that stands in the way with one more move.
    fn block_with(&self, client: &Client<'_>, number: u32, act: &Act<'_>) -> Option<Block>
        requires sight { IsSight client.now.sight.now }
        ensures { (track : TrackState) → IsTrack self.now track
            → result ≡ spec.block_with (client_of_lent client.now) track number (move_of act.now) }
    {
        if self.block.is_some() {
            return self.block;
        }
        at(number, check_move(client, &self.session, act)).err()
    }

    // The selection that the next move asks for, where that move is tried: where nothing stands in the way yet.
    pub fn asking(&self, selection: Option<u32>) -> Option<u32> {
        if self.block.is_some() {
            return None;
        }
        selection
    }

    // By a policy that no listed document has.
    pub fn outside(self) -> Track
        ensures { (track : TrackState) → IsTrack self track
            → IsTrack result (spec.gone_outside track) }
    {
        Track {
            session: self.session,
            done: self.done,
            block: self.block,
            outside: true,
        }
    }

    // Whether something stands in the way of each path that goes on from here: already, or at the goal, since
    // the client does not meet what the moves so far ask for.
    pub fn is_hopeless(&self, client: &Client<'_>) -> bool
        ensures { (track : TrackState) → IsTrack self.now track
            → result ≡ hopes.is_hopeless (client_of_lent client.now) track }
    {
        self.is_lost() || !meets(client, &self.session.bindings)
    }

    // Whether something stands in the way already.
    fn is_lost(&self) -> bool
        ensures { (track : TrackState) → IsTrack self.now track → result ≡ spec.is_lost track }
    {
        self.outside || self.block.is_some()
    }

    // What stands in the way of the whole path, at its end.
    pub fn end(&self, client: &Client<'_>) -> Result<(), Block>
        requires sight { IsSight client.now.sight.now }
        ensures { (track : TrackState) → IsTrack self.now track
            → Breaks result (spec.block_at_end (client_of_lent client.now) track) }
    {
        check_whole(client.sight, self.outside)?;
        match self.block {
            Some(block) => Err(block),
            None => at(0, check_goal(client, &self.session)),
        }
    }
}
