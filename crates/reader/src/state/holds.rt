// Calls on the tree that cannot be refused.
ghost use Rattle.tree.specs.Held.{Holder, Addable, Added, Released};

use tree::paths::PathTree;

// A new holder, whose path is that of `under` and then `item`.
pub(crate) fn extend(tree: &mut PathTree, under: u16, item: u32) -> u16
    requires { Addable tree.old under item }
    ensures { Added tree.old under item result tree.new }
{
    tree.add(under, item).unwrap()
}

// Lets a holder go.
pub(crate) fn dismiss(tree: &mut PathTree, holder: u16)
    requires { Holder tree.old holder }
    ensures { Released tree.old holder tree.new }
{
    tree.release(holder).unwrap();
}
