//! What a caller asks for: one operation, or a handful of pushes.
ghost use Rattle.std.specs.Prelude.{◌≡◌};
ghost use Rattle.bay_store.specs.declared.wishes.Wish.TheVariants.{One, Several};
ghost use Rattle.bay_store.specs.Wishes.{IsOne, IsSeveral, op_of, shares_of};

use crate::items::Items;
use bay_core::Op;

/// What a caller asks for.
#[derive(Drop)]
pub(crate) enum Wish {
    /// One operation with its item.
    One(Op, u64),
    /// A push of each of these items.
    Several(Items),
}

/// The operation that is asked for.
pub(crate) fn op_of(wish: &Wish) -> Op
    ensures { result ≡ op_of wish.now }
{
    match wish {
        Wish::One(op, _) => *op,
        Wish::Several(_) => Op::Push,
    }
}

/// How many shares it adds: one for each item that it puts in.
pub(crate) fn shares_of(wish: &Wish) -> u64
    ensures { result ≡ shares_of wish.now }
{
    match wish {
        Wish::One(Op::Push | Op::Enq, _) => 1,
        Wish::One(Op::Pop | Op::Deq | Op::Peek | Op::Sizes, _) => 0,
        Wish::Several(items) => items.len() as u64,
    }
}

/// The one operation that was asked for, and its item.
pub(crate) fn one_of(wish: Wish) -> (Op, u64)
    requires { IsOne wish }
    ensures { wish ≡ One result.0 result.1 }
{
    match wish {
        Wish::One(op, item) => (op, item),
        Wish::Several(_) => unreachable!(),
    }
}

/// The items of the handful that was asked for.
pub(crate) fn several_of(wish: Wish) -> Items
    requires { IsSeveral wish }
    ensures { wish ≡ Several result }
{
    match wish {
        Wish::Several(items) => items,
        Wish::One(_, _) => unreachable!(),
    }
}
