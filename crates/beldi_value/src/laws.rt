// Laws of the definitions that other crates build on.
ghost use Rattle.beldi_value.specs.ValueLaws.{AgesAreOrdered, IdTextIsExact, IntTextIsExact, NumeralTextIsExact, TextIsReadAgain};

/// Ages are a total order on ids.
pub fn ages_are_ordered()
    ensures { AgesAreOrdered }
{}

/// The text of a number below 2^64 is the one text without leading zeros that is read as it.
pub fn numeral_text_is_exact()
    ensures { NumeralTextIsExact }
{}

/// The canonical text of a whole number of 64 bits is the one text that is read as it.
pub fn int_text_is_exact()
    ensures { IntTextIsExact }
{}

/// The text of an id is the one text that is read as it.
pub fn id_text_is_exact()
    ensures { IdTextIsExact }
{}

/// The canonical text of a value within the limits is read as that value.
pub fn text_is_read_again()
    ensures { TextIsReadAgain }
{}
