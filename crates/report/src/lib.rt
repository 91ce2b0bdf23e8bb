// The message of a text's failure, in a buffer that is lent.
#![tactic(auto)]

ghost use Rattle.std.specs.Prelude.{◌≡◌};
ghost use Rattle.rules.specs.Report.{written, report_into};
ghost use Rattle.message.specs.Messages.{message_in, Printable};
ghost use Rattle.report.specs.Answers.{report_numbers};

// A failure's message at the front of out, where out holds it; its size.
fn put_failure(
    text: &[u8],
    out: &mut [u8],
    f: refusals::FailureRecord,
) -> Result<usize, refusals::Refusal>
    requires { Printable text.now f }
    ensures result_value { report_numbers result ≡ (written out.old (message_in text.now f)).reply }
    ensures out_after { out.new ≡ (written out.old (message_in text.now f)).out }
{
    let size = message::message_size(text, f);
    if out.len() < size {
        return Err(refusals::Refusal::Short(refusals::Buffer::Out, size));
    }
    let _ = message::put_message(out, text, f);
    Ok(size)
}

// A text by itself: the message of its failure at the front of out, and its size, 0 where the text reads; or a refusal that leaves out untouched:
// why the text is refused, but not 3, or 5 for out.
pub fn report(text: &[u8], out: &mut [u8]) -> Result<usize, refusals::Refusal>
    ensures result_value { report_numbers result ≡ (report_into text.now out.old).reply }
    ensures out_after { out.new ≡ (report_into text.now out.old).out }
{
    match passes::open_text(refusals::barge_limits(), text) {
        Ok(_) => Ok(0),
        Err(refusals::Unread::Fails(f)) => put_failure(text, out, f),
        Err(u) => Err(refusals::Refusal::Reading(u)),
    }
}
