// The laws of rows that log collectors leave of an item.
ghost use Rattle.beldi_splice.specs.SpliceLaws.{ActsKeepRowsSo, ContentsAreAlike, DanglesKeep, DropsKeep, FirstLeadsToLast, LinkedAreSo, MarksKeep, MoreAreGone, NextIsSafe, NobodyGoneNoneLess, ReadsGoFurther, SkippedAreUnled, SkipsKeep, UnfollowedAreAlike, WalksGoFurther};
ghost use Rattle.beldi_splice.specs.Onward.{ActsLeadOn, DropsLeadOn, MarksLeadOn, SkipsLeadOn, WaysBegin, WaysEnd, WaysGoOn};

/// A kept row that none follows is there, as it was kept.
pub fn rows_that_none_follows_are_alike()
    ensures { UnfollowedAreAlike }
{}

/// The first row leads to the last.
pub fn first_leads_to_the_last()
    ensures { FirstLeadsToLast }
{}

/// Value and owner are those that were kept, and so is the note of a place whose intent is not gone.
pub fn contents_are_alike()
    ensures { ContentsAreAlike }
{}

/// It is so where more are gone.
pub fn more_may_be_gone()
    ensures { MoreAreGone }
{}

/// What is safe from a row on is so from the next one.
pub fn what_is_safe_is_so_from_the_next_row()
    ensures { NextIsSafe }
{}

/// An act on a row that both have alike keeps them so.
pub fn acts_keep_rows_so()
    ensures { ActsKeepRowsSo }
{}

/// A row that may be led past is marked.
pub fn marks_keep_rows_so()
    ensures { MarksKeep }
{}

/// A row leads past a marked one.
pub fn skips_keep_rows_so()
    ensures { SkipsKeep }
{}

/// The first row does not lead to that then.
pub fn skipped_rows_are_led_to_no_more()
    ensures { SkippedAreUnled }
{}

/// A marked row is adrift, where the first one does not lead to it.
pub fn dangles_keep_rows_so()
    ensures { DanglesKeep }
{}

/// A row that is adrift for more than a life goes.
pub fn drops_keep_rows_so()
    ensures { DropsKeep }
{}

/// A walk that only reads and is led past rows sees what it has to at the row that it comes to.
pub fn reads_go_further()
    ensures { ReadsGoFurther }
{}

/// So does a walk for a place whose intent is not gone.
pub fn walks_go_further()
    ensures { WalksGoFurther }
{}

/// Linked rows are so of themselves.
pub fn linked_rows_are_so()
    ensures { LinkedAreSo }
{}

/// While nobody is gone they are those that were kept.
pub fn while_nobody_is_gone_all_rows_are_there()
    ensures { NobodyGoneNoneLess }
{}

/// Acts of runs leave what is on the way to a row that has a next, or went.
pub fn acts_lead_on()
    ensures { ActsLeadOn }
{}

/// So does what keeps the next of a row.
pub fn marks_lead_on()
    ensures { MarksLeadOn }
{}

/// So does a row that leads past a marked one.
pub fn skips_lead_on()
    ensures { SkipsLeadOn }
{}

/// So does a row that goes as it is adrift.
pub fn drops_lead_on()
    ensures { DropsLeadOn }
{}

/// The first row is on the way to each.
pub fn ways_begin_at_the_first_row()
    ensures { WaysBegin }
{}

/// The next of a row on the way is on it.
pub fn ways_go_on_to_the_next_row()
    ensures { WaysGoOn }
{}

/// Where a row on the way leads past the row, or nowhere, the first one does not lead to that.
pub fn ways_end_past_a_row()
    ensures { WaysEnd }
{}
