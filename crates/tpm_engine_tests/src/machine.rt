//! A machine under whole command buffers.

use crate::exercises::{ENTITIES, Exercise, passes_of};

#[test]
fn cut_commands_change_nothing(rt: HostRuntime) {
    assert!(rt; passes_of(rt.alloc(), ENTITIES, Exercise::Cuts));
}

#[test]
fn extends_do_not_replay(rt: HostRuntime) {
    assert!(rt; passes_of(rt.alloc(), "{}", Exercise::Extends));
}

#[test]
fn a_reset_begins_anew(rt: HostRuntime) {
    assert!(rt; passes_of(rt.alloc(), "{}", Exercise::Reset));
}
