//! The names that a module exports: GetExportedNames (ECMA-262, 16.2.1.7.2.1).

ghost use Rattle.std.specs.Prelude.{ℕ, ◌≡◌, ◌<◌, ◌++◌, IfOk, OnOk, Some, filter, length, nat_eq, slice_get};
ghost use Rattle.indexmap.specs.IndexSet.{index_set_len, insert_all};
ghost use Rattle.js_grammar.specs.ModuleRecords.{own_export_names};
ghost use Rattle.js_graph.specs.Collecting.{AreSorted, AreStars, exported_by, taken_from};
ghost use Rattle.js_graph.specs.Names.{AreExported, AreStarNames, is_taken, names_of, stars_at, stars_of};

use crate::module::Module;
use crate::name::Name;
use indexmap::IndexSet;
use js_base::{List, NoMemory, Text};
use js_record::{ExportEntries, ModuleRecord};
use std::alloc::Global;

/// A list of texts.
pub type Texts = List<Text>;

/// Adds the names that the entries export, in their order.
fn push_own(alloc: Global, names: &mut Texts, entries: &ExportEntries) -> Result<(), NoMemory>
    ensures { OnOk result (names.new ≡ names.old ++ exported_by entries.now) }
{
    for i in 0..entries.len() {
        if let Some(name) = entries[i].asked_name() {
            names.push(Text::from_str(alloc, name)?)?;
        }
    }
    Ok(())
}

/// The names that the module exports itself, in the order of its record.
fn own_names(alloc: Global, first: &Module) -> Result<Texts, NoMemory>
    ensures { IfOk result (λ names. names ≡ own_export_names first.now.module_record) }
{
    let mut names = List::new(alloc);
    push_own(alloc, &mut names, &first.module_record.local_export_entries)?;
    push_own(
        alloc,
        &mut names,
        &first.module_record.indirect_export_entries,
    )?;
    Ok(names)
}

/// Reaches the modules that the star entries of a module ask.
fn reach_stars(reached: &mut IndexSet<usize>, asked: &Module) -> Result<(), NoMemory>
    ensures { OnOk result (reached.new.keys ≡ insert_all nat_eq reached.old.keys (stars_of asked.now)) }
{
    let entries = &asked.module_record.star_export_entries;
    for i in 0..entries.len() {
        if let Some(target) = asked.target(&entries[i].module_request) {
            reached.insert(target)?;
        }
    }
    Ok(())
}

/// Reaches the modules that the star entries ask of the module at this place among those that were reached.
fn reach_next(
    reached: &mut IndexSet<usize>,
    modules: &Vec<Module>,
    place: usize,
) -> Result<(), NoMemory>
    requires { place < index_set_len reached.old }
    ensures { OnOk result ((number : ℕ) → slice_get reached.old.keys place ≡ Some number → reached.new.keys ≡ insert_all nat_eq reached.old.keys (stars_at modules.now.items number)) }
{
    match modules.get(reached[place]) {
        Some(asked) => reach_stars(reached, asked),
        None => Ok(()),
    }
}

/// The modules that paths of star entries reach from the module of this number, which is one of them.
fn star_modules(
    alloc: Global,
    modules: &Vec<Module>,
    number: usize,
) -> Result<IndexSet<usize>, NoMemory>
    ensures { IfOk result (λ s. AreStars modules.now.items number s.keys) }
{
    let mut reached = IndexSet::new(alloc);
    reached.insert(number)?;
    let mut done = 0;
    while done < reached.len() {
        reach_next(&mut reached, modules, done)?;
        done += 1;
    }
    Ok(reached)
}

/// Adds those of the names that the entries export which star entries of the first module bring in.
fn push_taken<'a>(
    names: &mut Vec<Name<'a>>,
    first: &Module,
    entries: &'a ExportEntries,
) -> Result<(), NoMemory>
    ensures { OnOk result (names.new.items ≡ names.old.items ++ filter (is_taken first.now) (exported_by entries.now)) }
{
    for i in 0..entries.len() {
        if let Some(name) = entries[i].asked_name() {
            if first.takes(name) {
                names.push(Name::new(name))?;
            }
        }
    }
    Ok(())
}

/// Adds those of the names of a record's exports which star entries of the first module bring in.
fn push_taken_of<'a>(
    names: &mut Vec<Name<'a>>,
    first: &Module,
    module_record: &'a ModuleRecord,
) -> Result<(), NoMemory>
    ensures { OnOk result (names.new.items ≡ names.old.items ++ filter (is_taken first.now) (own_export_names module_record.now)) }
{
    push_taken(names, first, &module_record.local_export_entries)?;
    push_taken(names, first, &module_record.indirect_export_entries)
}

/// Adds those of the names that the module of this number exports itself which star entries of the first module bring in.
fn push_taken_at<'a>(
    names: &mut Vec<Name<'a>>,
    first: &Module,
    modules: &'a Vec<Module>,
    number: usize,
) -> Result<(), NoMemory>
    ensures { OnOk result (names.new.items ≡ names.old.items ++ filter (is_taken first.now) (names_of modules.now.items number)) }
{
    match modules.get(number) {
        Some(other) => push_taken_of(names, first, &other.module_record),
        None => Ok(()),
    }
}

/// Of the names that these modules export themselves, those that star entries of the first module bring in.
fn taken_names<'a>(
    alloc: Global,
    modules: &'a Vec<Module>,
    first: &Module,
    numbers: &[usize],
) -> Result<Vec<Name<'a>>, NoMemory>
    ensures { IfOk result (λ names. names.items ≡ taken_from modules.now.items first.now numbers.now) }
{
    let mut names = Vec::new(alloc);
    for number in numbers {
        push_taken_at(&mut names, first, modules, *number)?;
    }
    Ok(names)
}

/// Puts names in order of their bytes, each once.
fn sort_names(names: &mut Vec<Name<'_>>)
    ensures { AreSorted names.old.items names.new.items }
{
    names.sort_unstable();
    names.dedup();
}

/// Adds these names.
fn push_all(alloc: Global, names: &mut Texts, others: &Vec<Name<'_>>) -> Result<(), NoMemory>
    ensures { OnOk result (names.new ≡ names.old ++ others.now.items) }
{
    for name in others {
        names.push(Text::from_str(alloc, name.text())?)?;
    }
    Ok(())
}

/// The names that star entries of the module of this number bring in, in order of their bytes.
fn star_names<'a>(
    alloc: Global,
    modules: &'a Vec<Module>,
    number: usize,
) -> Result<Vec<Name<'a>>, NoMemory>
    requires { number < length modules.now.items }
    ensures { IfOk result (λ names. AreStarNames modules.now.items number names.items) }
{
    let reached = star_modules(alloc, modules, number)?;
    let mut names = taken_names(alloc, modules, &modules[number], reached.as_slice())?;
    sort_names(&mut names);
    Ok(names)
}

/// The names that the module of this number exports.
pub(crate) fn exported_names(
    alloc: Global,
    modules: &Vec<Module>,
    number: usize,
) -> Result<Texts, NoMemory>
    requires { number < length modules.now.items }
    ensures { IfOk result (AreExported modules.now.items number) }
{
    let stars = star_names(alloc, modules, number)?;
    let mut names = own_names(alloc, &modules[number])?;
    push_all(alloc, &mut names, &stars)?;
    Ok(names)
}
