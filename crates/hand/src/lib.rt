// The ring hand: a place on a ring of so many corners, by value. Each step of the hand answers the present edge as two places and hands back the
// hand one place on.
#![tactic(auto)]

ghost use Rattle.std.specs.Prelude.{◌≡◌, Ok, Err};
ghost use Rattle.rules.specs.Entries.{hand_answer, hand_step_answer, hand_after};
ghost use Rattle.samples.specs.Answers.{answer_as};
ghost use Rattle.hand.specs.HandAnswers.{hand_at, edge_as};

use samples::refusals::{Reason, Refusal};
use samples::tests::MOST;

#[derive(Clone, Copy)]
pub struct Hand {
    pub count: usize,
    pub place: usize,
}

// An edge as two places.
#[derive(Clone, Copy)]
pub struct Edge {
    pub from: usize,
    pub to: usize,
}

// What a step gives: the present edge, and the hand one place on. A refused step hands back the hand as it came.
#[derive(Clone, Copy)]
pub struct Step {
    pub edge: Result<Edge, Refusal>,
    pub next: Hand,
}

impl Hand {
    // A hand for m corners, at place 0.
    #[tactic(auto, unfolding(rules::specs::Entries::hand_answer))]
    pub fn made_for(m: usize) -> Result<Hand, Refusal>
        ensures { answer_as hand_at result ≡ hand_answer m }
    {
        if MOST < m {
            return Err(Reason::TooMany.into());
        }
        if m == 0 {
            return Err(Reason::NoCorner.into());
        }
        Ok(Hand { count: m, place: 0 })
    }

    // The present edge, from this place to the next, and the hand one place on: place 0 after the last.
    #[tactic(auto, unfolding(rules::specs::Entries::hand_step_answer))]
    pub fn step(self) -> Step
        ensures edge { answer_as edge_as result.edge ≡ hand_step_answer (hand_at self) }
        ensures next { hand_at result.next ≡ hand_after (hand_step_answer (hand_at self)) (hand_at self) }
    {
        let Hand { count, place } = self;
        if MOST < count {
            return self.refused(Reason::TooMany);
        }
        if count <= place {
            return self.refused(Reason::NoCorner);
        }
        if place + 1 == count {
            return self.moved_to(0);
        }
        self.moved_to(place + 1)
    }

    fn refused(self, reason: Reason) -> Step
        ensures { result ≡ record { edge = Err (record { reason = reason; place = 0 }); next = self } }
    {
        Step {
            edge: Err(reason.into()),
            next: self,
        }
    }

    fn moved_to(self, to: usize) -> Step
        ensures { result ≡ record { edge = Ok (record { from = self.place; to = to }); next = record { count = self.count; place = to } } }
    {
        Step {
            edge: Ok(Edge {
                from: self.place,
                to,
            }),
            next: Hand {
                count: self.count,
                place: to,
            },
        }
    }
}
