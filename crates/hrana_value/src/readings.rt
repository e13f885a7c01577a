// Readings of a message's parts, put together: the first kind of decline in any part is that of the message.
ghost use Rattle.std.specs.Prelude.{◌≡◌, Ok, Err, IfOk, IfErr};
ghost use Rattle.hrana_value.specs.Declines.{both_of, more_of, items_of_reading};
ghost use Rattle.hrana_value.specs.declared.failures.Decline.{Decline};

use crate::ReadFail;

/// Two parts that were read, or the failure of the message: want of memory, or else the earlier kind of decline.
pub fn both_readings<A: Drop, B: Drop>(
    first: Result<A, ReadFail>,
    second: Result<B, ReadFail>,
) -> Result<(A, B), ReadFail>
    ensures { result ≡ both_of first second }
{
    match (first, second) {
        (Ok(a), Ok(b)) => Ok((a, b)),
        (Ok(_), Err(fail)) => Err(fail),
        (Err(fail), Ok(_)) => Err(fail),
        (Err(fail), Err(other)) => Err(fail.earlier(other)),
    }
}

/// The items that were read so far with one item more, or the failure of the list.
pub fn with_item<T: Drop>(
    items: Result<Vec<T>, ReadFail>,
    item: Result<T, ReadFail>,
) -> Result<Vec<T>, ReadFail>
    ensures ok { IfOk result (λ v. more_of (items_of_reading items) item ≡ Ok v.items) }
    ensures declined { IfErr result (λ e. (k : Decline) → e ≡ ReadFail.Declined k → more_of (items_of_reading items) item ≡ Err (ReadFail.Declined k)) }
{
    match (items, item) {
        (Ok(mut items), Ok(item)) => match items.push(item) {
            Ok(()) => Ok(items),
            Err(_) => Err(ReadFail::NoMemory),
        },
        (Ok(_), Err(other)) => Err(other),
        (Err(fail), Ok(_)) => Err(fail),
        (Err(fail), Err(other)) => Err(fail.earlier(other)),
    }
}
