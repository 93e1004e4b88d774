//! A pool over a bay.
ghost use Rattle.std.specs.Prelude.{◌≡◌};

use bay_store::Bay;
use std::marker::Model;

/// Through which list of its bay a pool's items go.
#[derive(Clone, Copy, Debug, PartialEq, Eq)]
pub enum Way {
    /// Through the stack: the newest item is taken first.
    Stack,
    /// Through the queue: the oldest item is taken first.
    Queue,
}

/// Items that the callers of one bay share, all of which go through one of its lists.
#[derive(Drop)]
pub struct Pool<'a> {
    pub(crate) bay: &'a Bay,
    pub(crate) way: Way,
}

impl<'a> Model for Pool<'a> {
    ghost use Rattle.work_pool.specs.Shows.{Shared};

    ghost Value = { Shared };

    ghost use Rattle.work_pool.specs.Tokens.{shared_of};

    ghost view = { shared_of };
}

impl<'a> Pool<'a> {
    /// The pool of this bay's list. It changes nothing, waits for nobody and takes no memory.
    pub fn over(bay: &'a Bay, way: Way) -> Pool<'a>
        ensures { result ≡ record { site = bay.now.site; usage = bay.now.usage; way = way } }
    {
        Pool { bay, way }
    }
}
