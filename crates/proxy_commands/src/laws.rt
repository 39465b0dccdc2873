//! What holds of the words of the commands.
ghost use Rattle.std.specs.Prelude.{List};
ghost use Rattle.clap.specs.Words.{Text};
ghost use Rattle.proxy_commands.specs.Commands.{IsCascadeCommand, IsCommand};
ghost use Rattle.proxy_commands.specs.PlainWords.{ArePlainCascadeWords, ArePlainWords};
ghost use Rattle.proxy_commands.specs.declared.commands.CascadeCommand.{CascadeCommand};
ghost use Rattle.proxy_commands.specs.declared.commands.ProxyCommand.{ProxyCommand};

/// Plain words are the command that they say, whatever the parser of command lines makes of others: so
/// [`command_of`](crate::command_of) and [`cascade_command_of`](crate::cascade_command_of) read them as that, and refuse none.
pub fn plain_words_are_commands()
    ensures proxy { (words : List Text) (command : ProxyCommand) →
        ArePlainWords words command → IsCommand words command }
    ensures cascade { (words : List Text) (command : CascadeCommand) →
        ArePlainCascadeWords words command → IsCascadeCommand words command }
{}
