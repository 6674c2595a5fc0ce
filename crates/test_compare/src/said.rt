// The model's calls as the index's, and the index's answers as the model's. They are functions and no `From` or
// `TryFrom`, since both types of each are other crates', and the model knows no index.
use replies::Answer;
use test_array::outcomes::{Outcome, Refusal, Reply, UnknownNumber};
use test_model::{Call, Change};

// The change for the index.
fn request_for(change: Change, allowance: u32) -> index_rules::Call {
    match change {
        Change::Format {
            max_depth,
            segments,
        } => index_rules::Call::Format {
            depth: max_depth,
            segments,
            allowance,
        },
        Change::Put { key, value } => index_rules::Call::Put {
            key,
            value,
            allowance,
        },
        Change::Remove { key } => index_rules::Call::Remove { key, allowance },
        Change::Merge { key } => index_rules::Call::Merge { key, allowance },
        Change::Mend => index_rules::Call::Mend { allowance },
    }
}

// The call for the index.
pub(crate) fn request_of(call: Call) -> index_rules::Call {
    match call {
        Call::Change { change, allowance } => request_for(change, allowance),
        Call::Get { key } => index_rules::Call::Get { key },
        Call::List { .. } => index_rules::Call::List,
        Call::ListBlock { index, .. } => index_rules::Call::ListBlock { index },
    }
}

// What the index answered, if a call of the index may be refused so. A refusal goes by its number, which both
// have from the documents.
pub(crate) fn said_by(answer: Answer) -> Result<Outcome, UnknownNumber> {
    let reply = match answer.reply {
        Ok(replies::Reply::Done) => Ok(Reply::Done),
        Ok(replies::Reply::Value(value)) => Ok(Reply::Value(value)),
        Ok(replies::Reply::Listed(records, next)) => Ok(Reply::Listed { records, next }),
        Ok(replies::Reply::Absent) => Ok(Reply::Absent),
        Err(refusal) => Err(Refusal::try_from(u32::from(refusal))?),
    };
    Ok(Outcome {
        reply,
        stores: answer.stores,
    })
}
