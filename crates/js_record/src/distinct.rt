//! Whether a name is exported twice.

ghost use Rattle.std.specs.Prelude.{◌≡◌, ◌&&◌, bytes_eq, drop};
ghost use Rattle.std.specs.List.{list_any};
ghost use Rattle.js_record.specs.Distinct.{names_of, no_two, none_shared};

use part_visits::ExportEntries;

/// Whether one of the entries from this place on is exported by the name.
fn is_asked(entries: &ExportEntries, start: usize, name: &str) -> bool
    ensures { result ≡ list_any (bytes_eq name.now) (names_of (drop start entries.now)) }
{
    for i in start..entries.len() {
        if let Some(other) = entries[i].asked_name() {
            if name == other {
                return true;
            }
        }
    }
    false
}

/// Whether no two of the entries are exported by the same name.
fn are_distinct(entries: &ExportEntries) -> bool
    ensures { result ≡ no_two (names_of entries.now) }
{
    for i in 0..entries.len() {
        if let Some(name) = entries[i].asked_name() {
            if is_asked(entries, i + 1, name) {
                return false;
            }
        }
    }
    true
}

/// Whether no entry of one list is exported by the name of an entry of the other.
fn are_apart(entries: &ExportEntries, others: &ExportEntries) -> bool
    ensures { result ≡ none_shared (names_of entries.now) (names_of others.now) }
{
    for i in 0..entries.len() {
        if let Some(name) = entries[i].asked_name() {
            if is_asked(others, 0, name) {
                return false;
            }
        }
    }
    true
}

/// Whether no two of the entries of both lists are exported by the same name.
pub(crate) fn are_all_distinct(entries: &ExportEntries, others: &ExportEntries) -> bool
    ensures { result ≡ (no_two (names_of entries.now) && (no_two (names_of others.now) && none_shared (names_of entries.now) (names_of others.now))) }
{
    are_distinct(entries) && (are_distinct(others) && are_apart(entries, others))
}
