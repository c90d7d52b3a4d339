// What C calls: each function of the planner under its own name, with the same promise.
#![tactic(auto)]

ghost use Rattle.planner.specs.Promises.{CheckCall, ArrayRunCall, StreamRunCall, LayOutCall, PutBackCall};

#[unsafe(no_mangle)]
pub extern "C" fn sq_check(file: &[u8]) -> u64
    ensures { CheckCall file.now result }
{
    planner::sq_check(file)
}

#[unsafe(no_mangle)]
pub extern "C" fn sq_array_run(file: &[u8], input: &[u8], output: &mut [u8]) -> u64
    ensures { ArrayRunCall file.now input.now output.old result output.new }
{
    planner::sq_array_run(file, input, output)
}

#[unsafe(no_mangle)]
pub extern "C" fn sq_stream_run(file: &[u8], input: &[u8], output: &mut [u8]) -> u64
    ensures { StreamRunCall file.now input.now output.old result output.new }
{
    planner::sq_stream_run(file, input, output)
}

#[unsafe(no_mangle)]
pub extern "C" fn sq_lay_out(file: &[u8], arrays: &[u8], streams: &mut [u8]) -> u64
    ensures { LayOutCall file.now arrays.now streams.old result streams.new }
{
    planner::sq_lay_out(file, arrays, streams)
}

#[unsafe(no_mangle)]
pub extern "C" fn sq_put_back(file: &[u8], streams: &[u8], arrays: &mut [u8]) -> u64
    ensures { PutBackCall file.now streams.now arrays.old result arrays.new }
{
    planner::sq_put_back(file, streams, arrays)
}
