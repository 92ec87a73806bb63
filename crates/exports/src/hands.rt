// The ring hand.
ghost use Rattle.std.specs.Prelude.{◌≡◌};
ghost use Rattle.rules.specs.Entries.{hand_answer, hand_step_answer};
ghost use Rattle.exports.specs.Hands.{hand_at, made_face, stepped_face};

use crate::told::told;
use hand::{Edge, Hand};

#[repr(C)]
#[derive(Clone, Copy)]
pub struct HandC {
    pub count: usize,
    pub place: usize,
}

#[repr(C)]
#[derive(Clone, Copy)]
pub struct HandMade {
    pub number: u32,
    pub place: usize,
    pub hand: HandC,
}

#[repr(C)]
#[derive(Clone, Copy)]
pub struct HandStepped {
    pub number: u32,
    pub place: usize,
    pub from: usize,
    pub to: usize,
    pub hand: HandC,
}

impl From<Hand> for HandC {
    ghost from_gives = { λ hand r. r ≡ record { count = hand.count; place = hand.place } };

    fn from(hand: Hand) -> HandC {
        HandC {
            count: hand.count,
            place: hand.place,
        }
    }
}

impl From<HandC> for Hand {
    ghost from_gives = { λ hand r. r ≡ record { count = hand.count; place = hand.place } };

    fn from(hand: HandC) -> Hand {
        Hand {
            count: hand.count,
            place: hand.place,
        }
    }
}

#[unsafe(no_mangle)]
pub extern "C" fn nuoskelma_hand_for(corners: usize) -> HandMade
    ensures { result ≡ made_face (hand_answer corners) }
{
    let none = Hand { count: 0, place: 0 };
    let (number, place, hand) = told(Hand::made_for(corners), none);
    HandMade {
        number,
        place,
        hand: hand.into(),
    }
}

#[unsafe(no_mangle)]
pub extern "C" fn nuoskelma_hand_step(hand: HandC) -> HandStepped
    ensures { result ≡ stepped_face (hand_step_answer (hand_at hand)) (hand_at hand) }
{
    let stepped = Hand::from(hand).step();
    let (number, place, edge) = told(stepped.edge, Edge { from: 0, to: 0 });
    HandStepped {
        number,
        place,
        from: edge.from,
        to: edge.to,
        hand: stepped.next.into(),
    }
}
