//! Lists, and their members in order.

ghost use Rattle.std.specs.Prelude.{◌≡◌, ◌≤◌, ◌++◌, ◌∷◌, [], List, Result, IfOk, length, All};
ghost use Rattle.std.proofs.Common.{rules};
ghost use Rattle.serde_json.specs.View.{items_view};
ghost use Rattle.cv_project.specs.declared.refusal.Refusal.{Refusal};
ghost use Rattle.cv_project.specs.Answers.{Answers};
ghost use Rattle.cv_project.specs.Lists.{members_from, list_of, each};
ghost use Rattle.cv_project.specs.Nodes.{TreeNode};
ghost use Rattle.cv_project.specs.Seen.{seen};

use crate::kind::{Kind, is_between};
use crate::node::Node;
use crate::refusal::Refusal;
use cv_model::Sequence;
use serde_json::Value;

/// A member of a list, which may be judged by those before it.
pub trait Member {
    /// What is read.
    type Made: Drop;

    ghost made: { Self → List Self.Made → TreeNode → Result Self.Made Refusal };

    ghost keeps: { Self → List Self.Made → Type 0 };

    /// What a node says behind the members that were read before it, or the first refusal.
    fn read_behind(&self, before: &[Self::Made], node: &Node<'_>) -> Result<Self::Made, Refusal>
        requires { keeps self.now before.now }
        ensures exact { Answers result (made self.now before.now (seen node.now)) }
        ensures kept { IfOk result (λ x. keeps self.now (before.now ++ x ∷ [])) };

    ghost begins: { (s : Self) → keeps s [] };
}

/// A member that isn't judged by those before it.
#[derive(Drop)]
pub struct Each<K>(pub K);

impl<K: Kind> Member for Each<K> {
    type Made = K::Made;

    ghost made = { λ s. each (K.made s.0) };

    ghost keeps = { λ s. All (K.keeps s.0) };

    fn read_behind(&self, _before: &[K::Made], node: &Node<'_>) -> Result<K::Made, Refusal> {
        self.0.read(node)
    }

    ghost begins = { Prim.search rules };
}

/// A list of so many members.
#[derive(Drop)]
pub struct ListOf<M> {
    /// The least number of members.
    pub least: u64,
    /// The greatest number of members.
    pub most: u64,
    /// What each member is.
    pub of: M,
}

impl<M: Member> Kind for ListOf<M> {
    type Made = Sequence<M::Made>;

    ghost made = { λ k. list_of k.least k.most (M.made k.of) };

    ghost keeps = { λ k xs. M.keeps k.of xs × (k.least ≤ length xs) × (length xs ≤ k.most) };

    #[tactic(auto, unfolding(crate::specs::Lists::list_of))]
    fn read(&self, node: &Node<'_>) -> Result<Sequence<M::Made>, Refusal> {
        let Some(items) = node.value().as_array() else {
            return Err(node.wrong_kind());
        };
        let items = items.as_slice();
        if is_between(self.least, items.len() as u64, self.most) {
            members(&self.of, node, items)
        } else {
            Err(node.limit())
        }
    }
}

/// All members of a list in order, or the first refusal.
pub fn members<'x, M: Member>(
    of: &M,
    node: &'x Node<'x>,
    items: &'x [Value],
) -> Result<Sequence<M::Made>, Refusal>
    ensures exact { Answers result
        (members_from (M.made of.now) (seen node.now).path [] (items_view items.now)) }
    ensures kept { IfOk result (M.keeps of.now) }
    ensures count { IfOk result (λ xs. length xs ≡ length items.now) }
{
    let mut made = Sequence::new(node.alloc());
    for (at, value) in items.iter().enumerate() {
        let item = of.read_behind(made.as_slice(), &node.member(at, value))?;
        made.put(item)?;
    }
    Ok(made)
}
