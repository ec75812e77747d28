// Text in, report out, for C: the functions of host/binefdar.h. Each is report's function of its name.
#![tactic(auto)]

ghost use Rattle.std.specs.Prelude.{◌≡◌};
ghost use Rattle.book.specs.declared.loading.Loading.{Loading};
ghost use Rattle.buffer_writer.specs.Buffer.{handed, in_buffer};
ghost use Rattle.report.specs.Report.{report};

// A book is loaded as any that is in order.
#[unsafe(no_mangle)]
pub extern "C" fn binefdar_report(input: &[u8], out: &mut [u8]) -> u64
    ensures { handed result out.new ≡ in_buffer out.old (report Loading.Ordinary input.now) }
{
    report::binefdar_report(input, out)
}

// A book is loaded strictly.
#[unsafe(no_mangle)]
pub extern "C" fn binefdar_report_strict(input: &[u8], out: &mut [u8]) -> u64
    ensures { handed result out.new ≡ in_buffer out.old (report Loading.Strict input.now) }
{
    report::binefdar_report_strict(input, out)
}

// A book is loaded for the lasting way, in which a state lasts until the next call.
#[unsafe(no_mangle)]
pub extern "C" fn binefdar_report_lasting(input: &[u8], out: &mut [u8]) -> u64
    ensures { handed result out.new ≡ in_buffer out.old (report Loading.Lasting input.now) }
{
    report::binefdar_report_lasting(input, out)
}

// For that way, and strictly.
#[unsafe(no_mangle)]
pub extern "C" fn binefdar_report_lasting_strict(input: &[u8], out: &mut [u8]) -> u64
    ensures { handed result out.new ≡ in_buffer out.old (report Loading.LastingStrict input.now) }
{
    report::binefdar_report_lasting_strict(input, out)
}
