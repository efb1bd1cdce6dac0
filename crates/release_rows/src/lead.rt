//! Leads: some rows of a file, each with a count of items among which no row of its group has a greater key. By them the place of an added row
//! is found without a look at all rows.

ghost use Rattle.std.specs.Prelude.{◌≡◌, ℕ, ◌≤◌, ◌&&◌, List, None, Some, IfSome, false, length, take, true};
ghost use Rattle.std.specs.Ordering.{is_gt, is_lt, nat_cmp, ordering_then};
ghost use Rattle.std.specs.Str.{bytes_eq};
ghost use Rattle.ucd_points.specs.MissingLines.{takes_missing};
ghost use Rattle.ucd_points.specs.declared.files.SourceFile.{SourceFile as FileValue};
ghost use Rattle.ucd_facts.specs.declared.row.Row.{Row as RowValue};
ghost use Rattle.source_rows.specs.KeyNames.{content_group, content_names, names_cmp};
ghost use Rattle.release_rows.specs.FileItems.{FileItem};
ghost use Rattle.release_rows.specs.Leads.{AreLeads, GivesRow, IsLead, KeepLeads, NoneFollows};
ghost use Rattle.release_rows.specs.Operations.{place_in, put_in};
ghost use Rattle.release_rows.specs.Searches.{IsSoughtRow};
ghost use Rattle.release_rows.specs.StoredItems.{content_at};

use crate::search::Search;
use crate::stored_item::{StoredItem, content_in};
use source_rows::{compare_names, content_section, contents_have_keys};
use std::alloc::Global;
use std::cmp::Ordering;
use ucd_facts::SourceFile;

/// How many items are looked at before a lead is put behind them.
const FEW: usize = 128;

/// A row, and a count of items.
#[derive(Clone, Copy, Debug)]
pub struct Lead {
    /// Among so many items from the first on, no row of the group has a greater key.
    pub count: usize,
    /// The first code point of the row, as a number.
    pub code: u32,
    /// Where the content of the row stands in the text of the file.
    pub item: StoredItem,
}

/// Leads of a file, if it has any. They are rows that were added while nothing else was edited.
#[derive(Debug, Drop)]
pub struct Leads {
    /// They ascend by their keys; `None` if no row was added.
    list: Option<Vec<Lead>>,
}

/// Whether a file has leads: SpecialCasing.txt, and the files whose keys are names alone. They have no missing rows.
pub fn has_leads(file: SourceFile) -> bool
    ensures { result ≡ true → takes_missing file ≡ false }
{
    matches!(
        file,
        SourceFile::SpecialCasing | SourceFile::PropertyAliases | SourceFile::PropertyValueAliases
    )
}

/// How the key that is looked for compares with that of a lead. The names of a lead at another code point are not read.
fn compare_search_with_lead(lead: Lead, search: &Search<'_>) -> Ordering
    ensures { result ≡ ordering_then (nat_cmp search.now.code lead.code)
        (names_cmp search.now.names
        (content_names search.now.file (content_at search.now.text lead.item))) }
{
    match search.code.cmp(&lead.code) {
        Ordering::Equal => {
            compare_names(
                search.file,
                search.names,
                content_in(search.text, lead.item),
            )
        }
        order => order,
    }
}

/// Whether the group that is looked for is that of a lead.
fn is_of_group(lead: Lead, search: &Search<'_>) -> bool
    ensures { result ≡ bytes_eq search.now.group
        (content_group search.now.file (content_at search.now.text lead.item)) }
{
    search.group == content_section(search.file, content_in(search.text, lead.item))
}

/// How many leads have no greater key than the one that is looked for, if they ascend by their keys.
fn lead_place(leads: &[Lead], search: &Search<'_>) -> usize
    ensures { result ≤ length leads.now }
{
    let mut from = 0;
    let mut to = leads.len();
    'halves: while from < to {
        let middle = from + (to - from) / 2;
        if compare_search_with_lead(leads[middle], search).is_lt() {
            to = middle;
        } else {
            from = middle + 1;
        }
    }
    from
}

/// Whether a lead is of the group that is looked for, and has no greater key.
fn is_in_group_up_to(lead: Lead, search: &Search<'_>) -> bool
    ensures group { result ≡ true → bytes_eq search.now.group
        (content_group search.now.file (content_at search.now.text lead.item)) ≡ true }
    ensures order { result ≡ true → is_lt (ordering_then (nat_cmp search.now.code lead.code)
        (names_cmp search.now.names
        (content_names search.now.file (content_at search.now.text lead.item)))) ≡ false }
{
    is_of_group(lead, search) && !compare_search_with_lead(lead, search).is_lt()
}

/// Whether a lead is of the group that is looked for, and has a lesser key.
fn is_in_group_below(lead: Lead, search: &Search<'_>) -> bool
    ensures { result ≡ (bytes_eq search.now.group
        (content_group search.now.file (content_at search.now.text lead.item))
        && is_gt (ordering_then (nat_cmp search.now.code lead.code)
        (names_cmp search.now.names
        (content_names search.now.file (content_at search.now.text lead.item))))) }
{
    is_of_group(lead, search) && compare_search_with_lead(lead, search).is_gt()
}

/// The least place that a lead leaves open: no item before it has a row of the group that is looked for with a greater key.
fn least_place_by_lead(lead: Lead, search: &Search<'_>) -> usize
    ensures { (row : RowValue) (items : List FileItem)
        → IsSoughtRow search.now.file row search.now.text search.now
        → IsLead search.now.file search.now.text items lead
        → NoneFollows search.now.file row (take result items) }
{
    contents_have_keys();
    if is_in_group_up_to(lead, search) {
        return lead.count;
    }
    0
}

/// The least place that leads leave open, if they ascend by their keys.
fn least_place_by_leads(leads: &[Lead], search: &Search<'_>) -> usize
    ensures { (row : RowValue) (items : List FileItem)
        → IsSoughtRow search.now.file row search.now.text search.now
        → AreLeads search.now.file search.now.text items leads.now
        → NoneFollows search.now.file row (take result items) }
{
    let place = lead_place(leads, search);
    if place == 0 {
        return 0;
    }
    least_place_by_lead(leads[place - 1], search)
}

/// The lead, if the row that is looked for is put in behind so many items.
fn moved_lead(lead: Lead, search: &Search<'_>, count: usize) -> Lead
    ensures { (row : RowValue) (items : List FileItem) (added : FileItem)
        → IsSoughtRow search.now.file row search.now.text search.now
        → added.row ≡ Some row
        → count ≤ length items
        → IsLead search.now.file search.now.text items lead
        → IsLead search.now.file search.now.text (put_in items count added) result }
{
    contents_have_keys();
    if lead.count <= count {
        return lead;
    }
    if is_in_group_below(lead, search) {
        return Lead { count, ..lead };
    }
    match lead.count.checked_add(1) {
        Some(more) => Lead {
            count: more,
            ..lead
        },
        None => Lead { count, ..lead },
    }
}

/// Moves leads, if the row that is looked for is put in behind so many items.
fn move_all(leads: &mut Vec<Lead>, search: &Search<'_>, count: usize)
    ensures { (row : RowValue) (items : List FileItem) (added : FileItem)
        → IsSoughtRow search.now.file row search.now.text search.now
        → added.row ≡ Some row
        → count ≤ length items
        → AreLeads search.now.file search.now.text items leads.old.items
        → AreLeads search.now.file search.now.text (put_in items count added) leads.new.items }
{
    let mut at = 0;
    'leads: while at < leads.len() {
        leads[at] = moved_lead(leads[at], search, count);
        at += 1;
    }
}

/// Puts a lead in for the row that is looked for, behind those that have no greater key. If there is no memory for it, all stay as they were.
fn put_lead(leads: &mut Vec<Lead>, search: &Search<'_>, lead: Lead)
    ensures { (file : FileValue) (text : List ℕ) (items : List FileItem)
        → IsLead file text items lead → AreLeads file text items leads.old.items
        → AreLeads file text items leads.new.items }
{
    let place = lead_place(leads, search);
    let Ok(()) = leads.insert(place, lead) else {
        return;
    };
}

/// Moves leads for the row that is looked for, which stands there in the text and is put in at its place, behind so many items. It has a
/// lead of its own if many items behind those that leads passed were looked at.
fn note_row(leads: &mut Vec<Lead>, search: &Search<'_>, count: usize, item: StoredItem)
    requires { takes_missing search.now.file ≡ false }
    ensures { (row : RowValue) (items : List FileItem) (added : FileItem)
        → IsSoughtRow search.now.file row search.now.text search.now
        → GivesRow search.now.file search.now.text item row
        → added.row ≡ Some row
        → count ≡ place_in search.now.file row items
        → count ≤ length items
        → AreLeads search.now.file search.now.text items leads.old.items
        → AreLeads search.now.file search.now.text (put_in items count added) leads.new.items }
{
    let seen = least_place_by_leads(leads, search);
    move_all(leads, search, count);
    if count.saturating_sub(seen) <= FEW {
        return;
    }
    let lead = Lead {
        count,
        code: search.code,
        item,
    };
    put_lead(leads, search, lead);
}

/// Takes leads out; none if there are none.
fn take_leads(alloc: Global, leads: &mut Option<Vec<Lead>>) -> Vec<Lead>
    ensures { (file : FileValue) (text : List ℕ) (items : List FileItem)
        → IfSome leads.old (λ old. AreLeads file text items old.items)
        → AreLeads file text items result.items }
{
    match leads.take() {
        Some(leads) => leads,
        None => Vec::new(alloc),
    }
}

impl Leads {
    /// No leads. It takes no memory.
    pub fn none() -> Leads
        ensures { (file : FileValue) (text : List ℕ) (items : List FileItem)
            → KeepLeads file text items result }
    {
        Leads { list: None }
    }

    /// Drops all leads.
    pub fn clear(&mut self)
        ensures { (file : FileValue) (text : List ℕ) (items : List FileItem)
            → KeepLeads file text items self.new }
    {
        self.list = None;
    }

    /// How many items are passed by leads: none of them has a row of the group that is looked for with a greater key.
    pub fn skippable_items(&self, search: &Search<'_>) -> usize
        ensures { (row : RowValue) (items : List FileItem)
            → IsSoughtRow search.now.file row search.now.text search.now
            → KeepLeads search.now.file search.now.text items self.now
            → NoneFollows search.now.file row (take result items) }
    {
        match &self.list {
            Some(leads) => least_place_by_leads(leads, search),
            None => 0,
        }
    }

    /// Notes that the row that is looked for, which stands there in the text, is put in at its place, behind so many items. There are no
    /// leads if the file has none, or if there is no memory for the first.
    fn note_added_row_behind(
        &mut self,
        alloc: Global,
        search: &Search<'_>,
        count: usize,
        item: StoredItem,
    )
        ensures { (row : RowValue) (items : List FileItem) (added : FileItem)
            → IsSoughtRow search.now.file row search.now.text search.now
            → GivesRow search.now.file search.now.text item row
            → added.row ≡ Some row
            → count ≡ place_in search.now.file row items
            → count ≤ length items
            → KeepLeads search.now.file search.now.text items self.old
            → KeepLeads search.now.file search.now.text (put_in items count added) self.new }
    {
        if !has_leads(search.file) {
            self.list = None;
            return;
        }
        let mut leads = take_leads(alloc, &mut self.list);
        note_row(&mut leads, search, count, item);
        self.list = Some(leads);
    }

    /// Notes that the row that is looked for, which stands there in the text, is put in at its place. If it is told behind how many items
    /// that is, leads are moved for it; otherwise all are dropped.
    pub fn note_added_row(
        &mut self,
        alloc: Global,
        search: &Search<'_>,
        count: Option<usize>,
        item: StoredItem,
    )
        ensures { (row : RowValue) (items : List FileItem) (added : FileItem)
            → IsSoughtRow search.now.file row search.now.text search.now
            → GivesRow search.now.file search.now.text item row
            → added.row ≡ Some row
            → IfSome count (λ count. count ≡ place_in search.now.file row items)
            → place_in search.now.file row items ≤ length items
            → KeepLeads search.now.file search.now.text items self.old
            → KeepLeads search.now.file search.now.text
            (put_in items (place_in search.now.file row items) added) self.new }
    {
        match count {
            Some(count) => self.note_added_row_behind(alloc, search, count, item),
            None => self.list = None,
        }
    }
}
