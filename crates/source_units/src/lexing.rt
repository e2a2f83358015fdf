// The tokens of all files.

ghost use Rattle.std.specs.Prelude.{◌≤◌, ◌^◌, length, map, All, IfOk, IfErr};
ghost use Rattle.je_lexer.specs.Lexing.{IsTokens};
ghost use Rattle.source_units.specs.Files.{AreTokens, bytes_of, file_tokens};
ghost use Rattle.source_units.specs.Faults.{IsRefusal, IsTokenFault, IsFirstTokenFault};
ghost use Rattle.source_units.specs.way.Ready.{IsReady};

use crate::refusal::Refusal;
use host_text::{Finding, Rule};
use je_lexer::{LexFault, Tokens, lex};
use std::alloc::Global;

// The tokens of all files, in order; or the fault of the first that has none.
pub(crate) fn lex_all(alloc: Global, files: &[Vec<u8>]) -> Result<Vec<Tokens>, Refusal>
    requires count { length files.now ≤ 16 }
    requires small { All (λ file. length file.items ≤ 2 ^ 20) files.now }
    ensures ok { IfOk result
        (λ all. AreTokens 0 (bytes_of files.now) (map file_tokens all.items)) }
    ensures ready { IfOk result (λ all. All IsReady all.items) }
    ensures count { IfOk result (λ all. length all.items ≤ 16) }
    ensures err { IfErr result (IsRefusal (IsFirstTokenFault (bytes_of files.now))) }
{
    let mut all = Vec::new(alloc);
    for bytes in files {
        let tokens = lex_file(alloc, all.len() as u16, bytes)?;
        all.push(tokens)?;
    }
    Ok(all)
}

// The tokens of a file by its number, or its fault.
#[tactic(auto, using(crate::proofs::Lexed::ready, crate::proofs::Lexed::refused))]
fn lex_file(alloc: Global, file: u16, bytes: &[u8]) -> Result<Tokens, Refusal>
    requires small { length bytes.now ≤ 2 ^ 20 }
    ensures ok { IfOk result (IsTokens file bytes.now) }
    ensures ready { IfOk result IsReady }
    ensures err { IfErr result (IsRefusal (IsTokenFault file bytes.now)) }
{
    match lex(alloc, file, bytes) {
        Ok(tokens) => Ok(tokens),
        Err(LexFault::Memory) => Err(Refusal::Memory),
        Err(LexFault::At { kind, span }) => Err(Refusal::Fault(Finding {
            rule: Rule::Token(kind),
            span,
        })),
    }
}
