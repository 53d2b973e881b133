//! What the program is asked for by its arguments.
use anyhow::anyhow;
use std::env;

pub const USAGE: &str = "\
iolink [--explain] [FILE]

Reads a script from FILE, or from standard input, and prints a line for each command.
--explain adds to each line what it means. --help prints this text.

  open frame N P Q                             opens a line with N on-request octets,
                                               P input octets and Q output octets
  message CHARS                                reads a Master message
  answer CONTROL CHARS                         reads the answer to a message
  put CONTROL OUTPUTS ONREQUEST                writes a Master message
  reply CONTROL ONREQUEST INPUTS FLAG INVALID  writes the answer to a message
  request HEX                                  reads a request
  response write|read HEX                      reads what has come of the reply to a request
  encode write INDEX SUB HEX                   writes a request to write octets
  encode read INDEX SUB                        writes a request to read

  CHARS     characters of three hexadecimal digits joined by '.', as 1F1.194.000
  CONTROL   the control octet of the message, as 241 or 0xF1
  HEX, OUTPUTS, INPUTS, ONREQUEST
            octets of two hexadecimal digits, as 00FF
  FLAG      1 if the answer shows events, else 0
  INVALID   1 if the inputs are not valid, else 0
  INDEX     0 to 65535, as 24 or 0x18
  SUB       the subindex, 0 to 255

  '-' stands for no characters or octets, and '#' starts a comment.
";

#[derive(Drop)]
pub struct Options {
    pub explain: bool,
    pub help: bool,
    /// The file to read, if one is named.
    pub path: Option<String>,
}

impl Options {
    pub fn from_args(rt: &HostRuntime) -> anyhow::Result<Options> {
        let mut options = Options {
            explain: false,
            help: false,
            path: None,
        };
        for arg in env::args(rt)?.skip(1) {
            match arg.as_str() {
                "--explain" => options.explain = true,
                "--help" => options.help = true,
                text if text.starts_with('-') => return Err(anyhow!(
                    "no such option; --help says what there is"
                )),
                _ if options.path.is_some() => return Err(anyhow!("more than one file is named")),
                _ => options.path = Some(arg),
            }
        }
        Ok(options)
    }
}
