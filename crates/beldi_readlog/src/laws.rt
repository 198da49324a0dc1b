// The laws of what reads were given.
ghost use Rattle.beldi_readlog.specs.ReadLog.{GetGives, ValuesArePutOnce, ValuesStay};

/// What `get` answers is what was given, none exactly where there is no row, and the rows stay as they are.
pub fn what_was_given_is_given()
    ensures { GetGives }
{}

/// What `put_once` answers is given from then on: the value that was there, with all rows as they were, or else its own.
pub fn a_value_is_put_once()
    ensures { ValuesArePutOnce }
{}

/// Whatever is asked of a table, but that a row is removed, what a read was given stays.
pub fn a_value_stays()
    ensures { ValuesStay }
{}
