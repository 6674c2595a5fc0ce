// The tests of a job's year, month and number.
ghost use Rattle.std.specs.Prelude.{◌≡◌};
ghost use Rattle.board.specs.Jobs.{valid_year, valid_month, valid_number};
ghost use Rattle.board.specs.Tested.{TestedBy, KeyedBy};

use crate::id::JobId;
use replies::Refusal;

// The last year of a job; the first is 1.
const LAST_YEAR: u64 = 9999;

// The last month of a year; the first is 1.
pub(crate) const LAST_MONTH: u64 = 12;

// The last number of a month's jobs; the first is 0.
pub(crate) const LAST_NUMBER: u64 = 4095;

// Whether there are jobs of this year.
pub(crate) fn valid_year(year: u64) -> bool
    ensures { result ≡ valid_year year }
{
    1 <= year && year <= LAST_YEAR
}

// Whether a year has this month.
fn valid_month(month: u64) -> bool
    ensures { result ≡ valid_month month }
{
    1 <= month && month <= LAST_MONTH
}

// Whether a month has a job with this number.
fn valid_number(number: u64) -> bool
    ensures { result ≡ valid_number number }
{
    number <= LAST_NUMBER
}

// The job with these, behind their tests in document 02's order: 11, 12, 13.
fn job_of(year: u64, month: u64, number: u64) -> Result<JobId, Refusal>
    ensures { TestedBy result year month number }
{
    if !valid_year(year) {
        return Err(Refusal::BadYear);
    }
    if !valid_month(month) {
        return Err(Refusal::BadMonth);
    }
    if !valid_number(number) {
        return Err(Refusal::BadNumber);
    }
    Ok(JobId {
        year,
        month,
        number,
    })
}

// The key of a job behind its tests.
pub(crate) fn key_of(year: u64, month: u64, number: u64) -> Result<u64, Refusal>
    ensures { KeyedBy result year month number }
{
    Ok(job_of(year, month, number)?.key())
}
