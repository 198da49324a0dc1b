//! The rows that a table has of an item beside the kept ones, which are all that ever were: log collectors mark rows whose every entry
//! is of who is gone, lead the rows before past them, leave them adrift, and remove them a life later.
//!
//! What both hold is alike (`contents_are_alike`), the first row leads to the last (`first_leads_to_the_last`), and acts of runs
//! (`acts_keep_rows_so`) and of collectors (`marks_keep_rows_so` to `drops_keep_rows_so`) keep them so. A walk that is led past rows
//! sees what it would have seen had it taken each (`walks_go_further`), and rows that it is led to stay until its deadline. What a
//! collector found on the way to a marked row is so whatever others do (`acts_lead_on` to `ways_end_past_a_row`).
#![tactic(auto)]

mod laws;

pub use laws::{
    acts_keep_rows_so, acts_lead_on, contents_are_alike, dangles_keep_rows_so, drops_keep_rows_so,
    drops_lead_on, first_leads_to_the_last, linked_rows_are_so, marks_keep_rows_so, marks_lead_on,
    more_may_be_gone, reads_go_further, rows_that_none_follows_are_alike,
    skipped_rows_are_led_to_no_more, skips_keep_rows_so, skips_lead_on, walks_go_further,
    ways_begin_at_the_first_row, ways_end_past_a_row, ways_go_on_to_the_next_row,
    what_is_safe_is_so_from_the_next_row, while_nobody_is_gone_all_rows_are_there,
};
