// The calls of SQLite, each in a function of its own, and what each makes of the table.
ghost use Rattle.std.specs.Prelude.{[], ◌∷◌, ◌≡◌, IfOk, OnOk, IsTrue, option_map};
ghost use Rattle.std.specs.FinMap as map;
ghost use Rattle.sqlite.specs.declared.types.Value.TheVariants.{Blob};
ghost use Rattle.sqlite.specs.Order.{column};
ghost use Rattle.sqlite.specs.State.{HasCleanDisk, Executes, QueriesRow};
ghost use Rattle.sqlite.specs.Steps.{IsEmpty};
ghost use Rattle.sqlite.specs.Held.{state};
ghost use Rattle.beldi_blobs.specs.Texts.{create_text, get_text, put_text, remove_text, next_text};
ghost use Rattle.beldi_blobs.specs.BlobEntries.{IsTable, entries_in};
ghost use Rattle.beldi_blobs.specs.BlobCalls.{Keeps, Makes, PutsOr, RemovesOr, Finds, FindsAbove, ReadsValue, ReadsEntry, IsNext, pair_of};

use crate::entry::Entry;
use crate::error::{BlobErr, refusal};
use sqlite::types::ValueRef;
use sqlite::{Alter, Connection, Error, Row};

fn create<S: Alter>(conn: &mut Connection<S>) -> Result<usize, Error>
    ensures { HasCleanDisk (state S.Store conn.new) → Executes create_text [] (state S.Store conn.old) (state S.Store conn.new) result }
{
    conn.execute(
        "CREATE TABLE IF NOT EXISTS beldi (k BLOB PRIMARY KEY NOT NULL, v BLOB NOT NULL) STRICT",
        &[],
    )
}

fn read<S: Alter>(conn: &mut Connection<S>, key: &[u8]) -> Result<Row, Error>
    ensures { HasCleanDisk (state S.Store conn.new) → QueriesRow get_text (Blob key.now ∷ []) (state S.Store conn.old) (state S.Store conn.new) result }
{
    conn.query_row("SELECT v FROM beldi WHERE k = ?1", &[ValueRef::Blob(key)])
}

fn write<S: Alter>(conn: &mut Connection<S>, key: &[u8], value: &[u8]) -> Result<usize, Error>
    ensures { HasCleanDisk (state S.Store conn.new) → Executes put_text (Blob key.now ∷ Blob value.now ∷ []) (state S.Store conn.old) (state S.Store conn.new) result }
{
    conn.execute(
        "INSERT INTO beldi (k, v) VALUES (?1, ?2) ON CONFLICT (k) DO UPDATE SET v = excluded.v",
        &[ValueRef::Blob(key), ValueRef::Blob(value)],
    )
}

fn delete<S: Alter>(conn: &mut Connection<S>, key: &[u8]) -> Result<usize, Error>
    ensures { HasCleanDisk (state S.Store conn.new) → Executes remove_text (Blob key.now ∷ []) (state S.Store conn.old) (state S.Store conn.new) result }
{
    conn.execute("DELETE FROM beldi WHERE k = ?1", &[ValueRef::Blob(key)])
}

fn read_above<S: Alter>(conn: &mut Connection<S>, key: &[u8]) -> Result<Row, Error>
    ensures { HasCleanDisk (state S.Store conn.new) → QueriesRow next_text (Blob key.now ∷ []) (state S.Store conn.old) (state S.Store conn.new) result }
{
    conn.query_row(
        "SELECT k, v FROM beldi WHERE k > ?1 ORDER BY k LIMIT 1",
        &[ValueRef::Blob(key)],
    )
}

fn begin<S: Alter>(conn: &mut Connection<S>) -> Result<usize, Error> {
    conn.execute("BEGIN", &[])
}

fn commit<S: Alter>(conn: &mut Connection<S>) -> Result<usize, Error> {
    conn.execute("COMMIT", &[])
}

/// Begins a transaction.
pub(crate) fn hold<S: Alter>(conn: &mut Connection<S>) -> Result<(), BlobErr> {
    match begin(conn) {
        Ok(_) => Ok(()),
        Err(error) => Err(refusal(error)),
    }
}

/// Commits the open transaction.
pub(crate) fn keep<S: Alter>(conn: &mut Connection<S>) -> Result<(), BlobErr> {
    match commit(conn) {
        Ok(_) => Ok(()),
        Err(error) => Err(refusal(error)),
    }
}

/// Makes the table in an empty database, and where it is not there.
pub(crate) fn make<S: Alter>(conn: &mut Connection<S>) -> Result<(), BlobErr>
    ensures { HasCleanDisk (state S.Store conn.new) → IsEmpty (state S.Store conn.old) → OnOk result (Makes (state S.Store conn.new)) }
{
    match create(conn) {
        Ok(_) => Ok(()),
        Err(error) => Err(refusal(error)),
    }
}

// The row with the value at the key.
fn find<S: Alter>(conn: &mut Connection<S>, key: &[u8]) -> Result<Option<Row>, BlobErr>
    ensures kept { HasCleanDisk (state S.Store conn.new) → IsTrue (state S.Store conn.new).is_open → IsTable (state S.Store conn.old) → Keeps (state S.Store conn.old) (state S.Store conn.new) }
    ensures found { HasCleanDisk (state S.Store conn.new) → IsTable (state S.Store conn.old) → IfOk result (Finds (state S.Store conn.old) key.now) }
{
    match read(conn, key) {
        Ok(row) => Ok(Some(row)),
        Err(Error::QueryReturnedNoRows) => Ok(None),
        Err(error) => Err(refusal(error)),
    }
}

// The row with the first key above this one, and its value.
fn find_above<S: Alter>(conn: &mut Connection<S>, key: &[u8]) -> Result<Option<Row>, BlobErr>
    ensures kept { HasCleanDisk (state S.Store conn.new) → IsTrue (state S.Store conn.new).is_open → IsTable (state S.Store conn.old) → Keeps (state S.Store conn.old) (state S.Store conn.new) }
    ensures found { HasCleanDisk (state S.Store conn.new) → IsTable (state S.Store conn.old) → IfOk result (FindsAbove (state S.Store conn.old) key.now) }
{
    match read_above(conn, key) {
        Ok(row) => Ok(Some(row)),
        Err(Error::QueryReturnedNoRows) => Ok(None),
        Err(error) => Err(refusal(error)),
    }
}

/// Sets the value at the key.
pub(crate) fn put<S: Alter>(
    conn: &mut Connection<S>,
    key: &[u8],
    value: &[u8],
) -> Result<(), BlobErr>
    ensures { HasCleanDisk (state S.Store conn.new) → IsTrue (state S.Store conn.new).is_open → IsTable (state S.Store conn.old) → PutsOr key.now value.now (state S.Store conn.old) (state S.Store conn.new) result }
{
    match write(conn, key, value) {
        Ok(_) => Ok(()),
        Err(error) => Err(refusal(error)),
    }
}

/// Removes the entry at the key, where there is one.
pub(crate) fn remove<S: Alter>(conn: &mut Connection<S>, key: &[u8]) -> Result<(), BlobErr>
    ensures { HasCleanDisk (state S.Store conn.new) → IsTrue (state S.Store conn.new).is_open → IsTable (state S.Store conn.old) → RemovesOr key.now (state S.Store conn.old) (state S.Store conn.new) result }
{
    match delete(conn, key) {
        Ok(_) => Ok(()),
        Err(error) => Err(refusal(error)),
    }
}

// The bytes in a column.
fn bytes_at(row: &Row, at: usize) -> Result<Vec<u8>, BlobErr>
    ensures { IfOk result (λ found. column row.now at ≡ Blob found.items) }
{
    match row.get(at) {
        Ok(found) => Ok(found),
        Err(error) => Err(refusal(error)),
    }
}

// The key and the value in a row.
fn entry_in(row: &Row) -> Result<Entry, BlobErr>
    ensures { IfOk result (λ e. (column row.now 0 ≡ Blob e.key.items) × (column row.now 1 ≡ Blob e.value.items)) }
{
    let key = bytes_at(row, 0)?;
    match bytes_at(row, 1) {
        Ok(value) => Ok(Entry { key, value }),
        Err(why) => {
            drop(key);
            Err(why)
        }
    }
}

// The value in the row that was found.
fn read_value(row: Option<Row>) -> Result<Option<Vec<u8>>, BlobErr>
    ensures { IfOk result (ReadsValue row) }
{
    match row {
        Some(row) => match bytes_at(&row, 0) {
            Ok(value) => Ok(Some(value)),
            Err(why) => Err(why),
        },
        None => Ok(None),
    }
}

// The key and the value in the row that was found.
fn read_entry(row: Option<Row>) -> Result<Option<Entry>, BlobErr>
    ensures { IfOk result (ReadsEntry row) }
{
    match row {
        Some(row) => match entry_in(&row) {
            Ok(entry) => Ok(Some(entry)),
            Err(why) => Err(why),
        },
        None => Ok(None),
    }
}

/// The value at the key.
pub(crate) fn get<S: Alter>(
    conn: &mut Connection<S>,
    key: &[u8],
) -> Result<Option<Vec<u8>>, BlobErr>
    ensures kept { HasCleanDisk (state S.Store conn.new) → IsTrue (state S.Store conn.new).is_open → IsTable (state S.Store conn.old) → Keeps (state S.Store conn.old) (state S.Store conn.new) }
    ensures found { HasCleanDisk (state S.Store conn.new) → IsTable (state S.Store conn.old) → IfOk result (λ o. option_map (λ v. v.items) o ≡ map.get (entries_in (state S.Store conn.old)) key.now) }
{
    match find(conn, key) {
        Ok(row) => read_value(row),
        Err(why) => Err(why),
    }
}

/// The first entry whose key is above this one.
pub(crate) fn next<S: Alter>(conn: &mut Connection<S>, key: &[u8]) -> Result<Option<Entry>, BlobErr>
    ensures kept { HasCleanDisk (state S.Store conn.new) → IsTrue (state S.Store conn.new).is_open → IsTable (state S.Store conn.old) → Keeps (state S.Store conn.old) (state S.Store conn.new) }
    ensures found { HasCleanDisk (state S.Store conn.new) → IsTable (state S.Store conn.old) → IfOk result (λ o. IsNext (entries_in (state S.Store conn.old)) key.now (option_map pair_of o)) }
{
    match find_above(conn, key) {
        Ok(row) => read_entry(row),
        Err(why) => Err(why),
    }
}
