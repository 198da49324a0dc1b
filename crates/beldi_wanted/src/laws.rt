// The laws of rows of items that were made, and are not linked yet.
ghost use Rattle.beldi_wanted.specs.Wanted.{BeginsWanted, FinishedEndAtLast, FinishedEndOnce, FinishedHaveNoSpare, KeepsWanted};

/// Over a table without rows no item has a row that is not linked yet, and a host that nothing has happened to has no run that makes one.
pub fn begins_wanted()
    ensures { BeginsWanted }
{}

/// Every event keeps that each such row has someone who will link it, whatever it came to, also out of memory.
pub fn an_event_keeps_spares_wanted()
    ensures { KeepsWanted }
{}

/// Where each intent that was bound has its finish, no item has such a row.
pub fn finished_rows_have_no_spare()
    ensures { FinishedHaveNoSpare }
{}

/// So the last row of an item is the last one that is there.
pub fn finished_rows_end_at_the_last()
    ensures { FinishedEndAtLast }
{}

/// So one row of an item has no next.
pub fn finished_rows_end_once()
    ensures { FinishedEndOnce }
{}
