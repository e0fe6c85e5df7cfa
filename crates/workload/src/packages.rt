ghost use Rattle.std.specs.Prelude.{◌≡◌, ◌≤◌, ◌<◌, codes, string_bytes, IfOk, OnOk};
ghost use Rattle.workload_spec.specs.Packages as spec;
ghost use Rattle.workload_spec.specs.Packages.{package_path};
ghost use Rattle.workload.specs.Putting.{ArePut, IsPut, IsWorkload};

use crate::put::put;
use shared_types::Memory;
use std::alloc::Global;
use tree_model::MemFolder;

/// What the application needs.
const APPLICATION: &str = "import \"p0\";\nimport \"p0/x/a\";\nimport \"c\";\n";

/// The shared package's package.json.
const SHARED: &str = "{\"name\":\"c\",\"exports\":\"./index.mjs\"}";

/// The main module of the last package.
const LAST_INDEX: &str = "import \"./x/a.js\";\nimport \"c\";\n";

/// The folder of so many packages, of which no look and no write fails.
pub fn tree_of(alloc: Global, count: u32) -> Result<MemFolder, Memory>
    requires few { count ≤ 2000 }
    ensures { IfOk result (IsWorkload count) }
{
    let mut folder = MemFolder::new(alloc, &[], &[])?;
    put_first(alloc, &mut folder)?;
    for number in 0..count {
        put_package(alloc, &mut folder, number, number + 1 == count)?;
    }
    Ok(folder)
}

// The application, and the shared package.
fn put_first(alloc: Global, folder: &mut MemFolder) -> Result<(), Memory>
    ensures { OnOk result (ArePut folder.old spec.first_files folder.new) }
{
    put(alloc, folder, "/app.mjs", APPLICATION)?;
    put(alloc, folder, "/node_modules/c/package.json", SHARED)?;
    put(
        alloc,
        folder,
        "/node_modules/c/index.mjs",
        "export const v = 0;\n",
    )
}

fn put_package(
    alloc: Global,
    folder: &mut MemFolder,
    number: u32,
    is_last: bool,
) -> Result<(), Memory>
    requires { number < 2000 }
    ensures { OnOk result (ArePut folder.old (spec.package_files number is_last) folder.new) }
{
    put_manifest(alloc, folder, number)?;
    put_inner(alloc, folder, number)?;
    put_index(alloc, folder, number, is_last)?;
    put_shared(alloc, folder, number)
}

fn put_manifest(alloc: Global, folder: &mut MemFolder, number: u32) -> Result<(), Memory>
    requires { number < 2000 }
    ensures { OnOk result (IsPut folder.old (package_path number (codes "/package.json")) (spec.manifest number)
        folder.new) }
{
    let path = format!(in alloc; "/node_modules/p{number}/package.json")?;
    let text = format!(in alloc;
        "{{\"name\":\"p{number}\",\"type\":\"module\",\"exports\":{{\".\":\"./index.js\",\"./x/*\":\"./x/*.js\"}}}}"
    )?;
    put(alloc, folder, path.as_str(), text.as_str())
}

fn put_inner(alloc: Global, folder: &mut MemFolder, number: u32) -> Result<(), Memory>
    requires { number < 2000 }
    ensures { OnOk result (IsPut folder.old (package_path number (codes "/x/a.js")) (codes "export {};\n")
        folder.new) }
{
    let path = format!(in alloc; "/node_modules/p{number}/x/a.js")?;
    put(alloc, folder, path.as_str(), "export {};\n")
}

fn put_index(
    alloc: Global,
    folder: &mut MemFolder,
    number: u32,
    is_last: bool,
) -> Result<(), Memory>
    requires { number < 2000 }
    ensures { OnOk result (IsPut folder.old (package_path number (codes "/index.js")) (spec.index_text number is_last)
        folder.new) }
{
    let path = format!(in alloc; "/node_modules/p{number}/index.js")?;
    let text = index_text(alloc, number, is_last)?;
    put(alloc, folder, path.as_str(), text.as_str())
}

fn index_text(alloc: Global, number: u32, is_last: bool) -> Result<String, Memory>
    requires { number < 2000 }
    ensures { IfOk result (λ text. string_bytes text ≡ spec.index_text number is_last) }
{
    if is_last {
        return String::from_str(alloc, LAST_INDEX);
    }
    let next = number + 1;
    let text = format!(in alloc; "import \"./x/a.js\";\nimport \"c\";\nimport \"p{next}\";\n")?;
    Ok(text)
}

// The shared package that stands in each tenth package.
fn put_shared(alloc: Global, folder: &mut MemFolder, number: u32) -> Result<(), Memory>
    requires { number < 2000 }
    ensures { OnOk result (ArePut folder.old (spec.shared_in number) folder.new) }
{
    if number % 10 != 3 {
        return Ok(());
    }
    let manifest = format!(in alloc; "/node_modules/p{number}/node_modules/c/package.json")?;
    put(alloc, folder, manifest.as_str(), SHARED)?;
    let module = format!(in alloc; "/node_modules/p{number}/node_modules/c/index.mjs")?;
    put(alloc, folder, module.as_str(), "export const v = 1;\n")
}
