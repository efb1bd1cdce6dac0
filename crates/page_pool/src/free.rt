//! The pages that are not live: a flag for each page, and a list, so that one is found at once.

ghost use Rattle.std.specs.Prelude.{◌≡◌, ◌+◌, ◌<◌, ◌≤◌, ◌^◌, true, false, not, ◌++◌, vec_len, vec_capacity, slice_index_or, slice_set, count_by, replicate};
ghost use Rattle.page_pool.specs.Pool.{IsFree};

/// Takes a page that is not live, and makes it live.
pub fn take_free(live: &mut Vec<bool>, free: &mut Vec<u32>) -> u32
    requires free { IsFree live.old.items free.old.items }
    requires some { 0 < count_by not live.old.items }
    ensures fresh { slice_index_or live.old.items result true ≡ false }
    ensures live { live.new.items ≡ slice_set live.old.items result true }
    ensures free { IsFree live.new.items free.new.items }
    ensures spare { count_by not live.new.items + 1 ≡ count_by not live.old.items }
    ensures len { vec_len live.new ≡ vec_len live.old }
    ensures capacity { vec_capacity free.new ≡ vec_capacity free.old }
{
    let page = free.take_last();
    live[page as usize] = true;
    page
}

/// Makes a page that is live free. There is room for it.
pub fn give_free(live: &mut Vec<bool>, free: &mut Vec<u32>, page: u32)
    requires free { IsFree live.old.items free.old.items }
    requires live { slice_index_or live.old.items page false ≡ true }
    requires room { vec_len live.old ≤ vec_capacity free.old }
    ensures live { live.new.items ≡ slice_set live.old.items page false }
    ensures free { IsFree live.new.items free.new.items }
    ensures spare { count_by not live.new.items ≡ count_by not live.old.items + 1 }
    ensures len { vec_len live.new ≡ vec_len live.old }
    ensures capacity { vec_capacity free.new ≡ vec_capacity free.old }
{
    live[page as usize] = false;
    free.push_reserved(page);
}

/// Puts further pages behind the others, none of them live. There is room for them.
pub fn add_free(live: &mut Vec<bool>, free: &mut Vec<u32>, more: usize)
    requires free { IsFree live.old.items free.old.items }
    requires small { vec_len live.old + more < 2 ^ 32 }
    requires live_room { vec_len live.old + more ≤ vec_capacity live.old }
    requires free_room { vec_len free.old + more ≤ vec_capacity free.old }
    ensures live { live.new.items ≡ live.old.items ++ replicate more false }
    ensures free { IsFree live.new.items free.new.items }
    ensures spare { count_by not live.new.items ≡ count_by not live.old.items + more }
    ensures len { vec_len live.new ≡ vec_len live.old + more }
    ensures capacity { vec_capacity free.new ≡ vec_capacity free.old }
{
    let pages = live.len();
    for page in pages..pages + more {
        live.push_reserved(false);
        free.push_reserved(page as u32);
    }
}
