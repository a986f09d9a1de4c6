//! What an entry does to an item.

ghost use Rattle.std.specs.Prelude.{◌≡◌, ◌≤◌, ◌||◌, not, vec_capacity, vec_len, length};
ghost use Rattle.std.specs.List.{list_all};
ghost use Rattle.engine_history.specs.Items.{at_item, come_to, count_out, ended, given_back, handed_out, has_ended, is_out, is_whole, items_from, new_items};
ghost use Rattle.job_log.specs.Changes.{after_change};

use checkpoints::ItemSaved;
use engine_history::End;

/// What an entry does to an item.
#[derive(Clone, Copy, Debug)]
pub enum ItemChange {
    HandOut,
    ComeTo { next: u16 },
    GiveBack { next: u16 },
    Become { item: ItemSaved },
}

/// The item after the change.
pub(crate) fn changed(item: ItemSaved, change: ItemChange) -> ItemSaved
    ensures { result ≡ after_change change item }
{
    match change {
        ItemChange::HandOut => handed_out(item),
        ItemChange::ComeTo { next } => come_to(item, next),
        ItemChange::GiveBack { next } => ItemSaved::ToDo { next },
        ItemChange::Become { item } => item,
    }
}

fn handed_out(item: ItemSaved) -> ItemSaved
    ensures { result ≡ handed_out item }
{
    match item {
        ItemSaved::ToDo { next } | ItemSaved::Out { next } => ItemSaved::Out { next },
        ItemSaved::Whole | ItemSaved::Lost | ItemSaved::Short => ItemSaved::Out { next: 0 },
    }
}

fn come_to(item: ItemSaved, next: u16) -> ItemSaved
    ensures { result ≡ come_to next item }
{
    match item {
        ItemSaved::ToDo { .. } => ItemSaved::ToDo { next },
        ItemSaved::Out { .. } => ItemSaved::Out { next },
        ItemSaved::Whole | ItemSaved::Lost | ItemSaved::Short => item,
    }
}

/// The item that ended so.
pub(crate) fn ended(end: &End) -> ItemSaved
    ensures { result ≡ ended end.now }
{
    match end {
        End::Whole => ItemSaved::Whole,
        End::Lost(_) => ItemSaved::Lost,
        End::Short(_) => ItemSaved::Short,
    }
}

/// Changes the item of this number, if there is one.
pub(crate) fn change_item(items: &mut Vec<ItemSaved>, at: usize, change: ItemChange)
    ensures items { items.new.items ≡ at_item at (after_change change) items.old.items }
    ensures capacity { vec_capacity items.new ≡ vec_capacity items.old }
    ensures len { length items.new.items ≡ length items.old.items }
{
    if at < items.len() {
        items[at] = changed(items[at], change);
    }
}

/// Hands out `count` items, from the first on.
pub(crate) fn hand_out(items: &mut Vec<ItemSaved>, first: u16, count: u8)
    ensures items { items.new.items ≡ items_from first count handed_out items.old.items }
    ensures capacity { vec_capacity items.new ≡ vec_capacity items.old }
    ensures len { length items.new.items ≡ length items.old.items }
{
    for turn in 0..count {
        change_item(
            items,
            usize::from(first) + usize::from(turn),
            ItemChange::HandOut,
        );
    }
}

/// The items of a new phase, in place of the old ones.
pub(crate) fn renew(items: &mut Vec<ItemSaved>, count: u16)
    requires { count ≤ vec_capacity items.old }
    ensures items { items.new.items ≡ new_items count }
    ensures capacity { vec_capacity items.new ≡ vec_capacity items.old }
{
    items.clear();
    for _item in 0..count {
        items.push_reserved(ItemSaved::ToDo { next: 0 });
    }
}

/// How many items are out.
pub(crate) fn count_out(items: &[ItemSaved]) -> u32
    requires { length items.now ≤ 256 }
    ensures { result ≡ count_out items.now }
{
    let mut out: u32 = 0;
    for item in items {
        if matches!(item, ItemSaved::Out { .. }) {
            out += 1;
        }
    }
    out
}

/// Whether all items have ended.
pub(crate) fn have_ended(items: &[ItemSaved]) -> bool
    ensures { result ≡ list_all has_ended items.now }
{
    items.iter().all(has_ended)
}

fn has_ended(item: &ItemSaved) -> bool
    ensures { result ≡ has_ended item.now }
{
    matches!(item, ItemSaved::Whole | ItemSaved::Lost | ItemSaved::Short)
}

/// Whether an item ended other than whole, among these or before.
pub(crate) fn is_partial(earlier: bool, items: &[ItemSaved]) -> bool
    ensures { result ≡ earlier || not (list_all is_whole items.now) }
{
    earlier || !are_whole(items)
}

fn are_whole(items: &[ItemSaved]) -> bool
    ensures { result ≡ list_all is_whole items.now }
{
    items.iter().all(is_whole)
}

fn is_whole(item: &ItemSaved) -> bool
    ensures { result ≡ is_whole item.now }
{
    matches!(item, ItemSaved::Whole)
}
