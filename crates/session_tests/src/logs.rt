//! What the ruler is asked in a run.

use outside::Event;

fn is_begin(event: &Event) -> bool {
    match event {
        Event::Begin(_) => true,
        Event::Measured(_, _) => false,
    }
}

/// The events before the next begin.
fn of_one_layout(events: &[Event]) -> &[Event] {
    let end = events.iter().position(is_begin).unwrap_or(events.len());
    events.get(..end).unwrap_or(&[])
}

/// What is measured in the layout with this number.
pub(crate) fn measured_in(events: &[Event], k: u32) -> &[Event] {
    match events.iter().position(|event| *event == Event::Begin(k)) {
        Some(begin) => of_one_layout(events.get(begin.saturating_add(1)..).unwrap_or(&[])),
        None => &[],
    }
}

/// How often the leaf of this name is measured.
pub(crate) fn times(events: &[Event], name: &[u8]) -> usize {
    events
        .iter()
        .filter(|event| match event {
            Event::Measured(leaf, _) => leaf.bytes() == name,
            Event::Begin(_) => false,
        })
        .count()
}

/// Whether no event stands twice.
pub(crate) fn differ(events: &[Event]) -> bool {
    let mut left = events;
    while let Some((event, later)) = left.split_first() {
        if later.contains(event) {
            return false;
        }
        left = later;
    }
    true
}

/// Whether these are from one to three measurements, all of the leaf of this name; or none, where
/// no name is given.
pub(crate) fn are_of(events: &[Event], name: &[u8]) -> bool {
    let again = times(events, name);
    if name.is_empty() {
        return events.is_empty();
    }
    events.len() == again && (1..=3).contains(&again)
}
