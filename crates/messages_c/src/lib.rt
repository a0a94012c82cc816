// The archive of the message check for C gateways: include/concur.h. The export is the function of its name in messages.
#![tactic(auto)]

ghost use Rattle.std.specs.Prelude.{◌≡◌};
ghost use Rattle.model.specs.Messages.{read_number};

#[unsafe(no_mangle)]
pub extern "C" fn concur_message_check(bytes: &[u8], n: u32) -> u32
    ensures { result ≡ read_number n bytes.now }
{
    messages::concur_message_check(bytes, n)
}
