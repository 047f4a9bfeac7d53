// The frame of every page. A change of looks checks this crate, and what prints pages.
#![tactic(auto)]

use arguments::lists;
use system::System;

// What every page has: up to its title, up to the end of its styles, up to the first hour, behind the last.
pub const TITLE: usize = 0;

pub const STYLE: usize = 1;

pub const BODY: usize = 2;

pub const END: usize = 3;

// Prints such a part.
pub fn plain(sys: &System, k: usize) -> bool {
    sys.print(lists::line(
        b"<!DOCTYPE html><html lang=\"en\"><head><meta charset=\"utf-8\"/><meta name=\"viewport\" content=\"width=device-width\"/><title>\n\
        : ATCs</title><style>body{font:14px/1.45 \"Segoe UI\",Arial,\"Liberation Sans\",sans-serif;color:#1b1b1b;background:#fff;max-width:1120px;margin:20px auto;padding:0 16px}\
        h1{font-size:26px;line-height:1.2;margin:0}h2{font-size:18px;margin:26px 0 4px;padding-top:8px;border-top:2px solid #16324f}h3{font-size:14px;margin:14px 0 4px}\
        p{margin:4px 0}.sub{color:#444}.tiles{display:flex;flex-wrap:wrap;gap:8px;margin:12px 0}.tiles div{border:1px solid #b8c0c8;border-radius:4px;padding:4px 14px 5px 10px}\
        .tiles b{display:block;font-size:20px;line-height:1.25}.tiles span{color:#444;font-size:12px}table{border-collapse:collapse;width:100%}\
        th{font-size:12px;font-weight:600;text-align:left;vertical-align:bottom;padding:2px 6px;border-bottom:1px solid #1b1b1b}\
        td{padding:0 6px;white-space:nowrap;border-bottom:1px solid #e4e4e4;height:22px}.n{text-align:right;font-variant-numeric:tabular-nums}.m{background:#f1f4f7}\
        .u{color:#5b5b5b}.c1{width:48px}.c2{width:48px}svg{display:block;overflow:visible}svg text{font-size:12px;fill:#1b1b1b}\
        .e{font-weight:700;paint-order:stroke;stroke:#fff;stroke-width:3px}.z{color:#8a8a8a}.a{fill:#16324f}.l{fill:#8cc4ea}.w{fill:#fff;stroke:#777}.g{stroke:#d5d9dd;fill:none}\
        .o{fill:url(#over);stroke:#1b1b1b}.k{fill:none;stroke:#1b1b1b;stroke-width:2}.p{fill:#808080}.q{fill:#7a3300}.r{fill:#ffd58a}.c{fill:none;stroke:#fff;stroke-width:2}\
        .key{display:flex;flex-wrap:wrap;gap:2px 18px;font-size:12px;margin:4px 0 6px}.key svg{display:inline-block;vertical-align:-2px;margin-right:5px}a{color:#0b4f8a}\
        :target{background:#fff1b8}details{margin:8px 0}summary{cursor:pointer;font-weight:600}.why{columns:2;column-gap:32px;margin-top:6px}\
        .why p{break-inside:avoid;margin:0 0 10px}.no{border:2px solid #1b1b1b;border-left-width:12px;padding:10px 16px;margin:14px 0;font-size:15px}\
        .no h2{border:0;margin:0;padding:0;font-size:22px}code,.line{font-family:Consolas,\"Liberation Mono\",monospace}\
        .line{font-size:15px;line-height:2.1;border:1px solid #b8c0c8;padding:4px 10px;margin:8px 0;overflow-wrap:anywhere}\
        .line i{font-style:normal;font-size:10px;color:#444;border:1px solid #b8c0c8;border-radius:3px;padding:1px 3px;margin:0 1px}\
        .line b{background:#1b1b1b;color:#fff;padding:3px 4px;margin:0 1px}.line u{text-decoration:none;font-size:12px;color:#444;margin-right:8px}\
        .line b i{color:#fff;border:0;padding:0;margin:0}.foot{margin-top:28px;border-top:1px solid #b8c0c8;padding-top:6px;font-size:12px;color:#333}@media screen and (max-width:1130px){body{font-size:13px}td,th{font-size:12px;padding:0 3px}.bar{width:340px;height:14px}.axis{width:340px;height:11px}\
        .rbar{width:200px;height:12px}.raxis{width:200px;height:9px}svg text{font-size:16px}.c1,.c2{width:auto}}\
        @page{size:A4;margin:12mm}\
        @media print{body{font-size:10px;max-width:none;margin:0;padding:0}h1{font-size:20px}h2{font-size:14px;margin-top:14px}h3{font-size:11px}\
        th,.key,.tiles span,.foot{font-size:8.5px}td{font-size:9px;height:13px;padding:0 3px}th{padding:1px 3px}.tiles{margin:6px 0;gap:5px}.tiles b{font-size:14px}\
        .tiles div{padding:2px 8px}.bar{width:330px;height:14px}.axis{width:330px;height:10px}.rbar{width:228px;height:13px}.raxis{width:228px;height:10px}.c1,.c2{width:auto}\
        .no,.line b,.line{print-color-adjust:exact;-webkit-print-color-adjust:exact}.no{font-size:11px}.line{font-size:10px}.line i{font-size:7px}\
        a{color:inherit;text-decoration:none}thead{display:table-header-group}tr,.why p,.no{break-inside:avoid}h2,h3,.key{break-after:avoid}.screen{display:none}\
        .why{column-gap:18px}}\n\
        </style></head><body>\
        <svg width=\"0\" height=\"0\" style=\"position:absolute\"><defs><path id=\"bg\" class=\"g\" d=\"M.5 0v22M115.5 0v22M230.5 0v22M345.5 0v22M460.5 0v22\"/><path id=\"rg\" class=\"g\" d=\"M.5 0v22M80.5 0v22M160.5 0v22M240.5 0v22M320.5 0v22\"/><path id=\"bx\" class=\"c\" d=\"M434 20l6 -18M440 20l6 -18\"/><path id=\"rx\" class=\"c\" d=\"M296 14l4 -12M302 14l4 -12\"/><pattern id=\"over\" width=\"5\" height=\"5\" patternUnits=\"userSpaceOnUse\" patternTransform=\"rotate(45)\"><rect width=\"5\" height=\"5\" fill=\"#fff\"/><rect width=\"3\" height=\"5\" fill=\"#1b1b1b\"/></pattern></defs></svg>\n\
        </body></html>\n",
        k,
    ))
}
