//! What holds of the definitions. Each law is the contract of a function that does nothing.

ghost use Rattle.std.specs.Prelude.{◌≡◌, ℕ, ℤ, Bool, List, map, Option, None, Some, false};
ghost use Rattle.part_rules.specs.declared.view.View.{View};
ghost use Rattle.tree_rules.specs.FlexSizes as rules;
ghost use Rattle.tree_rules.specs.Frames.{row_extent};
ghost use Rattle.tree_rules.specs.GridSizes.{Entry, Grid, Wide, child_inline, from_first, shares_columns, shares_rows};
ghost use Rattle.tree_rules.specs.Labels.{Label};
ghost use Rattle.block_sizes.specs.Children.{block_of_child, inline_of_child, size_and_given};
ghost use Rattle.block_sizes.specs.Flexes.{column_block_by, crosses_by, row_block_by, row_lines_by};

#[tactic(auto, using(crate::proofs::Same::same_laws))]
/// What `child_inline` and `child_block` answer is what the definition of a grid says of a child: by the way in which the grid
/// aligns its items, the tracks, the child's span counted from the first of them, the child's values, whether it is a subgrid
/// there, and the sizes of its content.
pub fn children_of_grids_are_as_defined()
    ensures inline { (g : Grid) (columns : View 0) (e : Entry) (sizes : ℤ × ℤ) →
        child_inline g columns e sizes ≡
        inline_of_child g.label.content.inline.items columns
        (from_first g.placed.columns e.area.columns) e.kid.label (shares_columns e.kid)
        sizes }
    ensures block { (g : Grid) (rows : View 1) (w : Wide) →
        size_and_given (row_extent g rows w) ≡
        block_of_child g.label.content.block.items rows
        (from_first g.placed.rows w.entry.area.rows) w.entry.kid.label
        (shares_rows w.entry.kid) w.down.block }
{}

#[tactic(auto, using(crate::proofs::Same::same_laws))]
/// What `row_lines`, `crosses_of`, `row_block` and `column_block` answer is what the definition of a flex container says, by its
/// items and by the sizes of its children across.
pub fn lines_are_as_defined()
    ensures lines { (f : rules.Flex) (width : ℤ) →
        rules.row_lines f width ≡
        row_lines_by f.label width
        (map (λ (m : rules.Member). rules.flex_item false (Some width) m.kid.label m.inline)
        f.members) }
    ensures crosses { (column : Bool) (x : Label) (settled : List rules.Settled)
        (ranges : List (ℕ × ℕ)) (cross : Option ℤ) →
        rules.crosses_of column x settled ranges cross ≡
        crosses_by column x (map (rules.outer_cross column cross) settled) ranges cross }
    ensures row { (f : rules.Flex) (lines : rules.Lines) (settled : List rules.Settled) →
        rules.row_block f lines settled ≡
        row_block_by f.label (map (rules.outer_cross false None) settled) lines.ranges }
    ensures column { (f : rules.Flex) (settled : List rules.Settled) →
        rules.column_block f settled ≡
        column_block_by f.label (map (rules.column_item None) settled) }
{}
