//! The computed values of a node, sorted by axis as the rules read them. A property that is not set has its initial value. Nothing
//! here takes memory.
//!
//! Axis 0 is the inline axis, along which the columns lie, and axis 1 the block axis, along which the rows lie.

ghost use Rattle.std.specs.Prelude.{◌≡◌, ◌∷◌, [], length, Some, None, false, pos};
ghost use Rattle.std.specs.Option.{option_copied, unwrap_or};
ghost use Rattle.lunit.specs.declared.line_value.LineValue.TheVariants as line;
ghost use Rattle.style_types.specs.Styles.{value_of};
ghost use Rattle.style_types.specs.Table.{auto_track, initial};
ghost use Rattle.style_types.specs.declared.track.Template.TheVariants as template;
ghost use Rattle.tree_rules.specs.Labels.{align_in, border_box_in, column_in, content_of, factor_in, flow_in, grid_of, length_in, line_in, margin_in, order_in, scrolls_in, size_in, sizes_in, template_in, wrap_in};
ghost use Rattle.tree_rules.specs.Chains.{is_subgrid};
ghost use Rattle.tree_rules.specs.Templates.{subgrid_sets};
ghost use Rattle.placing.specs.Axes.{content_axis, grid_axis, listed};
ghost use Rattle.placing.specs.Glances.{IsLineGlance};

use lunit::{LineValue, Lu, NameSet};
use runs::Runs;
use style_types::{
    Align, AlignMode, Areas, Glance, Prop, Scroll, Size, Style, Template, TrackFn, TrackList, Value,
};

// ---- values of properties

/// The track list that a property has; `None` where it has no such list.
fn list_of(style: &Style, p: Prop) -> Option<&TrackList>
    requires { template_in (initial p) ≡ template.Absent }
    ensures { option_copied result ≡ listed (template_in (value_of style.now p)) }
{
    match style.get(p) {
        Some(Value::Template(Template::Tracks(list))) => Some(list),
        _ => None,
    }
}

/// Name sets; `None` where there are none.
fn some_sets(sets: &Runs<NameSet>) -> Option<&Runs<NameSet>>
    ensures { unwrap_or (option_copied result) [] ≡ sets.now }
{
    if sets.is_empty() { None } else { Some(sets) }
}

/// The name sets that a property has with `subgrid`; `None` where it has none.
fn sets_of(style: &Style, p: Prop) -> Option<&Runs<NameSet>>
    requires { template_in (initial p) ≡ template.Absent }
    ensures { unwrap_or (option_copied result) [] ≡
        subgrid_sets (template_in (value_of style.now p)) }
{
    match style.get(p) {
        Some(Value::Template(Template::Subgrid(sets))) => some_sets(sets),
        _ => None,
    }
}

/// The track sizes that a property has; `None` where it is not set, and they are the one size `auto`.
fn sizes_of(style: &Style, p: Prop) -> Option<&[TrackFn]>
    requires { sizes_in (initial p) ≡ auto_track ∷ [] }
    ensures { unwrap_or (option_copied result) (auto_track ∷ []) ≡ sizes_in (value_of style.now p) }
{
    match style.get(p) {
        Some(Value::Sizes(sizes)) => Some(sizes.as_slice()),
        Some(_) => Some(&[]),
        None => None,
    }
}

/// The line value that a property has; `None` where it has none, and this is `auto`.
fn line_of(style: &Style, p: Prop) -> Option<&LineValue>
    requires { line_in (initial p) ≡ line.Auto }
    ensures { unwrap_or (option_copied result) line.Auto ≡ line_in (value_of style.now p) }
{
    match style.get(p) {
        Some(Value::Line(line)) => Some(line),
        _ => None,
    }
}

/// The size that a property has, or this one where it is not set.
fn size_of(style: &Style, p: Prop, unset: Size) -> Size
    requires { size_in (initial p) ≡ unset }
    ensures { result ≡ size_in (value_of style.now p) }
{
    match style.get(p) {
        Some(Value::Size(size)) => *size,
        Some(_) => Size::Auto,
        None => unset,
    }
}

#[tactic(auto, unfolding(lunit::specs::Units::clamp))]
/// A length of 0.
fn zero() -> Lu
    ensures { result ≡ pos 0 }
{
    Lu::of(0)
}

/// The length that a property has, 0 in place of a keyword or a percentage.
fn length_of(style: &Style, p: Prop) -> Lu
    requires { length_in (initial p) ≡ pos 0 }
    ensures { result ≡ length_in (value_of style.now p) }
{
    match style.get(p) {
        Some(Value::Size(Size::Length(length))) => *length,
        _ => zero(),
    }
}

/// The margin that a property has; `None` is `auto`.
fn margin_of(style: &Style, p: Prop) -> Option<Lu>
    requires { margin_in (initial p) ≡ Some (pos 0) }
    ensures { result ≡ margin_in (value_of style.now p) }
{
    match style.get(p) {
        Some(Value::Size(Size::Length(length))) => Some(*length),
        Some(_) => None,
        None => Some(zero()),
    }
}

/// The alignment that a property has, or one of this mode where it is not set.
fn align_of(style: &Style, p: Prop, unset: AlignMode) -> Align
    requires { align_in (initial p) ≡ record { mode = unset; safe = None } }
    ensures { result ≡ align_in (value_of style.now p) }
{
    match style.get(p) {
        Some(Value::Align(align)) => *align,
        Some(_) => Align {
            mode: AlignMode::Normal,
            safe: None,
        },
        None => Align {
            mode: unset,
            safe: None,
        },
    }
}

/// The flex factor that a property has, or this one where it is not set.
fn factor_of(style: &Style, p: Prop, unset: u32) -> u32
    requires { factor_in (initial p) ≡ unset }
    ensures { result ≡ factor_in (value_of style.now p) }
{
    match style.get(p) {
        Some(Value::Factor(factor)) => *factor,
        Some(_) => 0,
        None => unset,
    }
}

// ---- grid-class values of an axis

/// The track list of the template; `None` where this is `none` or `subgrid` (CSS Grid 2, section 7.2).
pub fn track_list<const AXIS: u8>(style: &Style) -> Option<&TrackList>
    ensures { option_copied result ≡ listed (grid_axis AXIS (grid_of style.now)).template }
{
    if AXIS == 0 {
        list_of(style, Prop::GridTemplateColumns)
    } else {
        list_of(style, Prop::GridTemplateRows)
    }
}

#[tactic(auto, using(crate::proofs::Glances::glance_laws))]
/// Whether the template is `subgrid` (CSS Grid 2, section 9). The template is not read.
pub fn is_subgrid<const AXIS: u8>(style: &Style) -> bool
    ensures { result ≡ is_subgrid (grid_axis AXIS (grid_of style.now)).template }
{
    if AXIS == 0 {
        style.has_subgrid_columns()
    } else {
        style.has_subgrid_rows()
    }
}

/// The name sets of the template `subgrid`; `None` where it has none, as another template (CSS Grid 2, section 9).
pub fn subgrid_sets<const AXIS: u8>(style: &Style) -> Option<&Runs<NameSet>>
    ensures { unwrap_or (option_copied result) [] ≡
        subgrid_sets (grid_axis AXIS (grid_of style.now)).template }
{
    if AXIS == 0 {
        sets_of(style, Prop::GridTemplateColumns)
    } else {
        sets_of(style, Prop::GridTemplateRows)
    }
}

/// How many name sets there are.
fn count_of(sets: Option<&Runs<NameSet>>) -> usize
    ensures { result ≡ length (unwrap_or (option_copied sets.entry) []) }
{
    match sets {
        Some(sets) => sets.len(),
        None => 0,
    }
}

/// How many name sets the template `subgrid` has; none for another template.
pub fn set_count<const AXIS: u8>(style: &Style) -> usize
    ensures { result ≡ length (subgrid_sets (grid_axis AXIS (grid_of style.now)).template) }
{
    count_of(subgrid_sets::<AXIS>(style))
}

/// The sizes of the tracks outside the template; `None` where they are not set, and are the one size `auto` (CSS Grid 2, section 7.6).
pub fn autos<const AXIS: u8>(style: &Style) -> Option<&[TrackFn]>
    ensures { unwrap_or (option_copied result) (auto_track ∷ []) ≡
        (grid_axis AXIS (grid_of style.now)).autos }
{
    if AXIS == 0 {
        sizes_of(style, Prop::GridAutoColumns)
    } else {
        sizes_of(style, Prop::GridAutoRows)
    }
}

/// The line value of its start as an item; `None` where it is not set, and is `auto` (CSS Grid 2, section 8.3).
pub fn start_line<const AXIS: u8>(style: &Style) -> Option<&LineValue>
    ensures { unwrap_or (option_copied result) line.Auto ≡
        (grid_axis AXIS (grid_of style.now)).start_line }
{
    if AXIS == 0 {
        line_of(style, Prop::GridColumnStart)
    } else {
        line_of(style, Prop::GridRowStart)
    }
}

/// The line value of its end as an item; `None` where it is not set, and is `auto` (CSS Grid 2, section 8.3).
pub fn end_line<const AXIS: u8>(style: &Style) -> Option<&LineValue>
    ensures { unwrap_or (option_copied result) line.Auto ≡
        (grid_axis AXIS (grid_of style.now)).end_line }
{
    if AXIS == 0 {
        line_of(style, Prop::GridColumnEnd)
    } else {
        line_of(style, Prop::GridRowEnd)
    }
}

#[tactic(auto, using(crate::proofs::Glances::glance_laws))]
/// What the line value of its start as an item tells at a glance.
pub fn start_glance<const AXIS: u8>(style: &Style) -> Glance
    ensures { IsLineGlance result (grid_axis AXIS (grid_of style.now)).start_line }
{
    if AXIS == 0 {
        style.column_start()
    } else {
        style.row_start()
    }
}

#[tactic(auto, using(crate::proofs::Glances::glance_laws))]
/// What the line value of its end as an item tells at a glance.
pub fn end_glance<const AXIS: u8>(style: &Style) -> Glance
    ensures { IsLineGlance result (grid_axis AXIS (grid_of style.now)).end_line }
{
    if AXIS == 0 {
        style.column_end()
    } else {
        style.row_end()
    }
}

#[tactic(auto, using(crate::proofs::Glances::glance_laws))]
/// The gap between two tracks (CSS Box Alignment 3, section 8.1).
pub fn gap<const AXIS: u8>(style: &Style) -> Size
    ensures { result ≡ (grid_axis AXIS (grid_of style.now)).gap }
{
    if AXIS == 0 {
        style.column_gap()
    } else {
        style.row_gap()
    }
}

/// The margin at the start, in units of 1/64 px; `None` is `auto` (CSS 2, section 8.3).
pub fn margin_start<const AXIS: u8>(style: &Style) -> Option<Lu>
    ensures { result ≡ (grid_axis AXIS (grid_of style.now)).margin_start }
{
    if AXIS == 0 {
        margin_of(style, Prop::MarginLeft)
    } else {
        margin_of(style, Prop::MarginTop)
    }
}

/// The margin at the end, in units of 1/64 px; `None` is `auto` (CSS 2, section 8.3).
pub fn margin_end<const AXIS: u8>(style: &Style) -> Option<Lu>
    ensures { result ≡ (grid_axis AXIS (grid_of style.now)).margin_end }
{
    if AXIS == 0 {
        margin_of(style, Prop::MarginRight)
    } else {
        margin_of(style, Prop::MarginBottom)
    }
}

/// The border at the start, in units of 1/64 px (CSS 2, section 8.5.1).
pub fn border_start<const AXIS: u8>(style: &Style) -> Lu
    ensures { result ≡ (grid_axis AXIS (grid_of style.now)).border_start }
{
    if AXIS == 0 {
        length_of(style, Prop::BorderLeftWidth)
    } else {
        length_of(style, Prop::BorderTopWidth)
    }
}

/// The border at the end, in units of 1/64 px (CSS 2, section 8.5.1).
pub fn border_end<const AXIS: u8>(style: &Style) -> Lu
    ensures { result ≡ (grid_axis AXIS (grid_of style.now)).border_end }
{
    if AXIS == 0 {
        length_of(style, Prop::BorderRightWidth)
    } else {
        length_of(style, Prop::BorderBottomWidth)
    }
}

/// The padding at the start, in units of 1/64 px (CSS 2, section 8.4).
pub fn padding_start<const AXIS: u8>(style: &Style) -> Lu
    ensures { result ≡ (grid_axis AXIS (grid_of style.now)).padding_start }
{
    if AXIS == 0 {
        length_of(style, Prop::PaddingLeft)
    } else {
        length_of(style, Prop::PaddingTop)
    }
}

/// The padding at the end, in units of 1/64 px (CSS 2, section 8.4).
pub fn padding_end<const AXIS: u8>(style: &Style) -> Lu
    ensures { result ≡ (grid_axis AXIS (grid_of style.now)).padding_end }
{
    if AXIS == 0 {
        length_of(style, Prop::PaddingRight)
    } else {
        length_of(style, Prop::PaddingBottom)
    }
}

// ---- the other grid-class values

/// The named areas of `grid-template-areas`; `None` is `none` (CSS Grid 2, section 7.3).
pub fn areas(style: &Style) -> Option<&Areas>
    ensures { option_copied result ≡ (grid_of style.now).areas }
{
    match style.get(Prop::GridTemplateAreas) {
        Some(Value::Areas(Some(areas))) => Some(areas),
        _ => None,
    }
}

/// `grid-auto-flow: column`, else `row` (CSS Grid 2, section 7.7).
pub fn is_column_flow(style: &Style) -> bool
    ensures { result ≡ (grid_of style.now).column_flow }
{
    match style.get(Prop::GridAutoFlow) {
        Some(Value::Flow { column, dense: _ }) => *column,
        _ => false,
    }
}

/// `grid-auto-flow: dense` (CSS Grid 2, section 7.7).
pub fn is_dense(style: &Style) -> bool
    ensures { result ≡ (grid_of style.now).dense }
{
    match style.get(Prop::GridAutoFlow) {
        Some(Value::Flow { column: _, dense }) => *dense,
        _ => false,
    }
}

/// `order` (CSS Grid 2, section 6.3).
pub fn order(style: &Style) -> i32
    ensures { result ≡ (grid_of style.now).order }
{
    match style.get(Prop::Order) {
        Some(Value::Order(order)) => *order,
        _ => 0,
    }
}

// ---- content-class values of an axis

/// `width` or `height` (CSS Box Sizing 3, section 3.1.1).
pub fn size<const AXIS: u8>(style: &Style) -> Size
    ensures { result ≡ (content_axis AXIS (content_of style.now)).size }
{
    if AXIS == 0 {
        size_of(style, Prop::Width, Size::Auto)
    } else {
        size_of(style, Prop::Height, Size::Auto)
    }
}

/// `min-width` or `min-height` (CSS Box Sizing 3, section 3.1.2).
pub fn least<const AXIS: u8>(style: &Style) -> Size
    ensures { result ≡ (content_axis AXIS (content_of style.now)).least }
{
    if AXIS == 0 {
        size_of(style, Prop::MinWidth, Size::Auto)
    } else {
        size_of(style, Prop::MinHeight, Size::Auto)
    }
}

/// `max-width` or `max-height` (CSS Box Sizing 3, section 3.1.3).
pub fn most<const AXIS: u8>(style: &Style) -> Size
    ensures { result ≡ (content_axis AXIS (content_of style.now)).most }
{
    if AXIS == 0 {
        size_of(style, Prop::MaxWidth, Size::Absent)
    } else {
        size_of(style, Prop::MaxHeight, Size::Absent)
    }
}

/// `justify-content` or `align-content` (CSS Box Alignment 3, section 5.1).
pub fn distribution<const AXIS: u8>(style: &Style) -> Align
    ensures { result ≡ (content_axis AXIS (content_of style.now)).distribution }
{
    if AXIS == 0 {
        align_of(style, Prop::JustifyContent, AlignMode::Normal)
    } else {
        align_of(style, Prop::AlignContent, AlignMode::Normal)
    }
}

/// `justify-items` or `align-items` (CSS Box Alignment 3, section 7).
pub fn items<const AXIS: u8>(style: &Style) -> Align
    ensures { result ≡ (content_axis AXIS (content_of style.now)).items }
{
    if AXIS == 0 {
        align_of(style, Prop::JustifyItems, AlignMode::Normal)
    } else {
        align_of(style, Prop::AlignItems, AlignMode::Normal)
    }
}

/// `justify-self` or `align-self` (CSS Box Alignment 3, section 6).
pub fn own<const AXIS: u8>(style: &Style) -> Align
    ensures { result ≡ (content_axis AXIS (content_of style.now)).own }
{
    if AXIS == 0 {
        align_of(style, Prop::JustifySelf, AlignMode::Auto)
    } else {
        align_of(style, Prop::AlignSelf, AlignMode::Auto)
    }
}

// ---- the other content-class values

/// `box-sizing: border-box`, else `content-box` (CSS Box Sizing 3, section 3.3).
pub fn is_border_box(style: &Style) -> bool
    ensures { result ≡ (content_of style.now).border_box }
{
    match style.get(Prop::BoxSizing) {
        Some(Value::BorderBox(border_box)) => *border_box,
        _ => false,
    }
}

/// `overflow` makes it a scroll container (CSS Overflow 3, section 3.1).
pub fn scrolls(style: &Style) -> bool
    ensures { result ≡ (content_of style.now).scrolls }
{
    match style.get(Prop::Overflow) {
        Some(Value::Overflow(Scroll::Hidden | Scroll::Scroll | Scroll::Auto)) => true,
        _ => false,
    }
}

/// `flex-direction: column`, else `row` (CSS Flexbox 1, section 5.1).
pub fn is_column(style: &Style) -> bool
    ensures { result ≡ (content_of style.now).column }
{
    match style.get(Prop::FlexDirection) {
        Some(Value::Column(column)) => *column,
        _ => false,
    }
}

/// `flex-wrap: wrap`, else `nowrap` (CSS Flexbox 1, section 5.2).
pub fn wraps(style: &Style) -> bool
    ensures { result ≡ (content_of style.now).wrap }
{
    match style.get(Prop::FlexWrap) {
        Some(Value::Wrap(wrap)) => *wrap,
        _ => false,
    }
}

/// `flex-grow`, in thousandths (CSS Flexbox 1, section 7.2.1).
pub fn grow(style: &Style) -> u32
    ensures { result ≡ (content_of style.now).grow }
{
    factor_of(style, Prop::FlexGrow, 0)
}

/// `flex-shrink`, in thousandths (CSS Flexbox 1, section 7.2.2).
pub fn shrink(style: &Style) -> u32
    ensures { result ≡ (content_of style.now).shrink }
{
    factor_of(style, Prop::FlexShrink, 1000)
}

/// `flex-basis` (CSS Flexbox 1, section 7.2.3).
pub fn basis(style: &Style) -> Size
    ensures { result ≡ (content_of style.now).basis }
{
    size_of(style, Prop::FlexBasis, Size::Auto)
}
