// The words that name types.
ghost use Rattle.std.specs.Prelude.{◌≡◌};
ghost use Rattle.kernel_meaning.specs.Values as Values;

use kernel_meaning::Base;

const INT: &[u8] = b"int";

const BOOLEAN: &[u8] = b"boolean";

const STRING: &[u8] = b"String";

const STREAM: &[u8] = b"DFEVar";

const STREAM_TYPE: &[u8] = b"DFEType";

const CHAIN: &[u8] = b"CounterChain";

const BLOCK: &[u8] = b"KernelBlock";

const LINK: &[u8] = b"DFELink";

const KERNEL_PARAMETERS: &[u8] = b"KernelParameters";

const ENGINE_PARAMETERS: &[u8] = b"EngineParameters";

/// The type that a word names, if it names one.
pub fn base_of(word: &[u8]) -> Option<Base>
    ensures { result ≡ Values.base_of word.now }
{
    if word == INT {
        Some(Base::Int)
    } else if word == BOOLEAN {
        Some(Base::Boolean)
    } else if word == STRING {
        Some(Base::Str)
    } else if word == STREAM {
        Some(Base::Stream)
    } else if word == STREAM_TYPE {
        Some(Base::StreamType)
    } else if word == CHAIN {
        Some(Base::Chain)
    } else if word == BLOCK {
        Some(Base::Block)
    } else if word == LINK {
        Some(Base::Link)
    } else if word == KERNEL_PARAMETERS {
        Some(Base::KernelParameters)
    } else if word == ENGINE_PARAMETERS {
        Some(Base::EngineParameters)
    } else {
        None
    }
}
