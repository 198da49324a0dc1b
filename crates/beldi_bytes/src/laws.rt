// The laws, one function a law, with no body.
ghost use Rattle.beldi_bytes.specs.KeyBytes.{BytesAreOrderedAsKeys, NoTwoKeysHaveOneBytes, WrittenKeysAreRead};
ghost use Rattle.beldi_bytes.specs.RowBytes.{NoTwoRowsHaveOneBytes, WrittenRowsAreRead, LateRowsAreNotRead};

/// The bytes of two keys compare as the keys.
pub fn bytes_are_ordered_as_keys()
    ensures { BytesAreOrderedAsKeys }
{}

/// Keys with the same bytes are one.
pub fn no_two_keys_have_the_same_bytes()
    ensures { NoTwoKeysHaveOneBytes }
{}

/// A key that was written is read again.
pub fn a_written_key_is_read_again()
    ensures { WrittenKeysAreRead }
{}

/// Rows with the same bytes are one.
pub fn no_two_rows_have_the_same_bytes()
    ensures { NoTwoRowsHaveOneBytes }
{}

/// A row that was written is read again.
pub fn a_written_row_is_read_again()
    ensures { WrittenRowsAreRead }
{}

/// A row with a moment above 2^62 is not read, though it has bytes.
pub fn a_late_row_is_not_read()
    ensures { LateRowsAreNotRead }
{}
