//! What holds of the layouts and the edits of a page. Each law is the contract of a function that
//! does next to nothing.

ghost use Rattle.std.specs.Prelude.{◌≡◌, [], ◌||◌, Bool, Contains, List, Ok, ℕ};
ghost use Rattle.asked_names.specs.Asked.{name_in, IsListed};
ghost use Rattle.asked_pages.specs.AskedOf.{asked_of, path_of};
ghost use Rattle.asked_pages.specs.Bounds.{IsBounded};
ghost use Rattle.asked_pages.specs.Leaves.{PassesUp};
ghost use Rattle.box_layout.specs.LeafHeights.{AreMeasured};
ghost use Rattle.box_layout.specs.Paths.{IsAsked, IsOnPath, IsPathKept};
ghost use Rattle.doc_text.specs.declared.document.Doc.{Doc};
ghost use Rattle.doc_text.specs.declared.edit.Edit.{Edit};
ghost use Rattle.doc_text.specs.Edits.{edited, tree_of};
ghost use Rattle.doc_text.specs.Laws.{NamesItsNode};
ghost use Rattle.doc_text.specs.Valid.{IsShaped, IsValid};
ghost use Rattle.edit_journal.specs.declared.change.Change.{Change};
ghost use Rattle.edit_journal.specs.Changes.{turned, CanTurn};
ghost use Rattle.node_arena.specs.declared.number.NodeId.{NodeId};
ghost use Rattle.page_tree.specs.Pages.{document_of};
ghost use Rattle.page_tree.specs.Reach.{is_touched, touches};
ghost use Rattle.placing.specs.Kept.{IsRight};
ghost use Rattle.placing.specs.Nodes.{bare};
ghost use Rattle.placing.specs.Walks.{State, Walk};
ghost use Rattle.tree_rules.specs.declared.query.Query.{Query};

use page_tree::{Page, pages_stand};

/// What laying out a page of a valid document in its viewport asks, keeps and measures. Each
/// question that may be asked stands in the list of the document's, and each one of the path in its
/// path. A layout that walks the page as [`Page::lay_out`] does keeps no more answers than the list
/// has questions, where no node has more than sixteen of them; at least one for each container that
/// kept nothing before; and a leaf that is a child of a grid and kept nothing, as the grid did, is
/// measured at the content width of its box.
pub fn layouts_of_pages(page: &Page)
    requires valid { IsValid (document_of page.now) }
    ensures asked { (m : NodeId) (q : Query) →
        IsAsked (bare page.now.nodes.tree) page.now.width page.now.height m q →
        IsListed (bare page.now.nodes.tree) (asked_of (document_of page.now)) m q }
    ensures path { (m : NodeId) (q : Query) →
        IsOnPath (bare page.now.nodes.tree) page.now.width page.now.height m q →
        Contains (path_of (document_of page.now)) (name_in (bare page.now.nodes.tree) m, q) }
    ensures bounded { (old new : State) → old.arena ≡ page.now.nodes →
        (walk : Walk (IsAsked (bare page.now.nodes.tree) page.now.width page.now.height) 0 [] old
        new) → IsRight new.arena.tree →
        IsPathKept (bare page.now.nodes.tree) page.now.width page.now.height new →
        AreMeasured (bare page.now.nodes.tree) page.now.width page.now.height old new →
        IsBounded page.now walk.added }
{
    pages_stand(page);
}

/// Where a change that can be applied touches a leaf of the document after it, it touches the
/// parent of the leaf. So where several changes follow one another: where names that held the
/// parent of each leaf before this change are joined with those that it touches, they hold it after
/// the change.
pub fn changes_touch_parents()
    ensures alone { (c : Change) (old : Doc) → IsShaped old.version (tree_of old) → CanTurn c old →
        PassesUp (touches c old (turned c old)) (tree_of (turned c old)) }
    ensures joined { (c : Change) (old : Doc) (test : List ℕ → Bool) →
        IsShaped old.version (tree_of old) → CanTurn c old → PassesUp test (tree_of old) →
        PassesUp (λ name. test name || touches c old (turned c old) name) (tree_of (turned c old)) }
{}

/// Where an edit touches a leaf of the document after it, it touches the parent of the leaf.
pub fn edits_touch_parents()
    ensures { (e : Edit) (old new : Doc) → IsShaped old.version (tree_of old) → NamesItsNode e →
        edited e old ≡ Ok new → PassesUp (is_touched e old new) (tree_of new) }
{}
