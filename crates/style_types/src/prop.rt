ghost use Rattle.std.specs.Prelude.{◌≡◌};
ghost use Rattle.style_types.specs.Table.{class_in_table};

/// The longhands, in the order of their table, which has the values that each takes and its initial value.
#[derive(Clone, Copy, Debug, PartialEq, Eq)]
pub enum Prop {
    /// CSS Grid 2, section 7.2. `none`, a track list, or `subgrid` with name sets.
    GridTemplateColumns,
    /// CSS Grid 2, section 7.2. The same.
    GridTemplateRows,
    /// CSS Grid 2, section 7.3. `none`, or the named areas.
    GridTemplateAreas,
    /// CSS Grid 2, section 7.6. One or more track sizes.
    GridAutoColumns,
    /// CSS Grid 2, section 7.6. The same.
    GridAutoRows,
    /// CSS Grid 2, section 7.7. The axis and whether it is `dense`.
    GridAutoFlow,
    /// CSS Grid 2, section 8.3. A line value.
    GridColumnStart,
    /// CSS Grid 2, section 8.3. A line value.
    GridColumnEnd,
    /// CSS Grid 2, section 8.3. A line value.
    GridRowStart,
    /// CSS Grid 2, section 8.3. A line value.
    GridRowEnd,
    /// CSS Grid 2, section 6.3, and CSS Flexbox 1, section 5.4. An integer.
    Order,
    /// CSS Box Alignment 3, section 8.1. `normal`, a length of at least 0, or a percentage.
    RowGap,
    /// CSS Box Alignment 3, section 8.1. The same.
    ColumnGap,
    /// CSS 2, section 8.3. `auto` or a length.
    MarginTop,
    /// CSS 2, section 8.3. The same.
    MarginRight,
    /// CSS 2, section 8.3. The same.
    MarginBottom,
    /// CSS 2, section 8.3. The same.
    MarginLeft,
    /// CSS 2, section 8.4. A length of at least 0.
    PaddingTop,
    /// CSS 2, section 8.4. The same.
    PaddingRight,
    /// CSS 2, section 8.4. The same.
    PaddingBottom,
    /// CSS 2, section 8.4. The same.
    PaddingLeft,
    /// CSS 2, section 8.5.1. A length of at least 0; that it begins at 0 is this project's own.
    BorderTopWidth,
    /// CSS 2, section 8.5.1. The same.
    BorderRightWidth,
    /// CSS 2, section 8.5.1. The same.
    BorderBottomWidth,
    /// CSS 2, section 8.5.1. The same.
    BorderLeftWidth,
    /// CSS Box Sizing 3, section 3.1.1. `auto`, a length of at least 0, or a percentage.
    Width,
    /// CSS Box Sizing 3, section 3.1.1. The same.
    Height,
    /// CSS Box Sizing 3, section 3.1.2. The same.
    MinWidth,
    /// CSS Box Sizing 3, section 3.1.2. The same.
    MinHeight,
    /// CSS Box Sizing 3, section 3.1.3. `none`, a length of at least 0, or a percentage.
    MaxWidth,
    /// CSS Box Sizing 3, section 3.1.3. The same.
    MaxHeight,
    /// CSS Box Sizing 3, section 3.3. `content-box` or `border-box`.
    BoxSizing,
    /// CSS Overflow 3, section 3.1. `visible`, `clip`, `hidden`, `scroll` or `auto`.
    Overflow,
    /// CSS Box Alignment 3, section 5.1. `normal`, `stretch`, a position, or one of the three `space` words.
    JustifyContent,
    /// CSS Box Alignment 3, section 5.1. The same.
    AlignContent,
    /// CSS Box Alignment 3, section 7.1. `normal`, `stretch` or a position; that it begins at `normal` is this
    /// project's own.
    JustifyItems,
    /// CSS Box Alignment 3, section 7.2. The same values.
    AlignItems,
    /// CSS Box Alignment 3, section 6.1. `auto`, `normal`, `stretch` or a position.
    JustifySelf,
    /// CSS Box Alignment 3, section 6.2. The same.
    AlignSelf,
    /// CSS Flexbox 1, section 5.1. `row` or `column`.
    FlexDirection,
    /// CSS Flexbox 1, section 5.2. `nowrap` or `wrap`.
    FlexWrap,
    /// CSS Flexbox 1, section 7.2.1. A factor.
    FlexGrow,
    /// CSS Flexbox 1, section 7.2.2. A factor.
    FlexShrink,
    /// CSS Flexbox 1, section 7.2.3. `auto`, `content`, a length of at least 0, or a percentage.
    FlexBasis,
    /// CSS Fonts 4, section 2.5. A length of at least 0. Inherited; that the root has 16 px is this project's own.
    FontSize,
}

/// What an edit of a property reaches beside the node and those above it (own rule).
#[derive(Clone, Copy, Debug, PartialEq, Eq)]
pub enum Class {
    /// The subgrids below the node and below its parent too: it can change lines, gaps or edges that they see.
    Grid,
    /// No more: it changes sizes and positions alone.
    Content,
    /// Each node below the node too, and the subgrids below its parent: it changes what the lengths with `em` are, and
    /// with `rem` where it is set on the root.
    Font,
}

/// The class of the property. Takes no memory.
pub fn class_of(p: Prop) -> Class
    ensures { result ≡ class_in_table p }
{
    match p {
        Prop::Width
        | Prop::Height
        | Prop::MinWidth
        | Prop::MinHeight
        | Prop::MaxWidth
        | Prop::MaxHeight
        | Prop::BoxSizing
        | Prop::Overflow
        | Prop::JustifyContent
        | Prop::AlignContent
        | Prop::JustifyItems
        | Prop::AlignItems
        | Prop::JustifySelf
        | Prop::AlignSelf
        | Prop::FlexDirection
        | Prop::FlexWrap
        | Prop::FlexGrow
        | Prop::FlexShrink
        | Prop::FlexBasis => Class::Content,
        Prop::FontSize => Class::Font,
        _ => Class::Grid,
    }
}
