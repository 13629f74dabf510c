// C's structs and record's, each made of the other: a record of C's has no open call, and an answer of C's has its number and value in place of a Result.
ghost use Rattle.std.specs.Prelude.{◌≡◌};
ghost use Rattle.exports.specs.Flat.{core_of, plain_of, queue_of, flat_of, ask_is, flat_made, flat_answer, lent_answer};

use crate::{Flat, FlatAnswer, FlatAsk, FlatMade, LentAnswer, Plain};
use asks::Done;
use record::{Answer, Ask, Made, Queue, number_of};
use rules::{Modes, Open};
use views::Core;

// ---- the record

impl From<Plain> for Core {
    ghost from_gives = { λ p c. c ≡ core_of p };

    fn from(p: Plain) -> Core {
        Core {
            n: p.n,
            modes: Modes {
                indirect: p.indirect,
                event_idx: p.event_idx,
                legacy: p.legacy,
            },
            base: p.base,
            num_used: p.num_used,
            free_head: p.free_head,
            avail_idx: p.avail_idx,
            last_used_idx: p.last_used_idx,
            call: Open::Idle,
        }
    }
}

impl From<Core> for Plain {
    ghost from_gives = { λ c p. p ≡ plain_of c };

    fn from(c: Core) -> Plain {
        Plain {
            n: c.n,
            indirect: c.modes.indirect,
            event_idx: c.modes.event_idx,
            legacy: c.modes.legacy,
            base: c.base,
            num_used: c.num_used,
            free_head: c.free_head,
            avail_idx: c.avail_idx,
            last_used_idx: c.last_used_idx,
        }
    }
}

impl From<Flat> for Queue {
    ghost from_gives = { λ f q. q ≡ queue_of f };

    fn from(f: Flat) -> Queue {
        let Flat {
            plain,
            words,
            lens,
            halves,
            sides,
        } = f;
        Queue {
            core: Core::from(plain),
            words,
            lens,
            halves,
            sides,
        }
    }
}

impl From<Queue> for Flat {
    ghost from_gives = { λ q f. f ≡ flat_of q };

    fn from(q: Queue) -> Flat {
        let Queue {
            core,
            words,
            lens,
            halves,
            sides,
        } = q;
        Flat {
            plain: Plain::from(core),
            words,
            lens,
            halves,
            sides,
        }
    }
}

// ---- what new is asked, and the answers

impl From<FlatAsk> for Ask {
    ghost from_gives = { λ f a. a ≡ ask_is f };

    fn from(f: FlatAsk) -> Ask {
        Ask {
            n: f.n,
            in_use: f.in_use,
            most: f.most,
            modes: Modes {
                indirect: f.indirect,
                event_idx: f.event_idx,
                legacy: f.legacy,
            },
            base_one: f.base_one,
            base_two: f.base_two,
            base_pool: f.base_pool,
        }
    }
}

impl From<Made> for FlatMade {
    ghost from_gives = { λ r f. f ≡ flat_made r };

    fn from(r: Made) -> FlatMade {
        let places = r.outcome.unwrap_or_default();
        FlatMade {
            answer: number_of(&r.outcome),
            table: places.table,
            avail: places.avail,
            used: places.used,
            queue: Flat::from(r.queue),
        }
    }
}

impl From<Answer> for FlatAnswer {
    ghost from_gives = { λ r f. f ≡ flat_answer r };

    fn from(r: Answer) -> FlatAnswer {
        FlatAnswer {
            answer: r.number(),
            value: r.value(),
            steps: r.steps,
            queue: Flat::from(r.queue),
        }
    }
}

impl From<Done> for LentAnswer {
    ghost from_gives = { λ d l. l ≡ lent_answer d };

    fn from(d: Done) -> LentAnswer {
        LentAnswer {
            answer: number_of(&d.outcome),
            value: d.outcome.unwrap_or(0),
            steps: d.steps,
            plain: Plain::from(d.core),
        }
    }
}
